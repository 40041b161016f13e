//! The laws. Their functions do nothing; each contract is a law.

ghost use Rattle.part_runs.specs.Laws.{BodiesAreHidden, HomesAreBelow, LettersFollow, MailIsSent, OwnMovesTell, PartsAreRuns, PartsAtHome, PartsCanRun, PartsStepAll, PassesByParts, RowsStay, RunsAreReadBack, StandsAreReached, TicksAreReached, VisitsAreFair, WalksAreMade};

/// What a part sees has the same slots, the movers of that part, and all bodies that are carried along.
pub fn bodies_are_hidden()
    ensures { BodiesAreHidden }
{}

/// Homes below the number of parts are those of all slots.
pub fn homes_are_below()
    ensures { HomesAreBelow }
{}

/// A part's bodies are within their limits.
pub fn parts_can_run()
    ensures { PartsCanRun }
{}

/// At any time of a run the part has the same movers at home and the same bodies that are carried along, and what a
/// tick does to all bodies it does to these.
pub fn parts_at_home()
    ensures { PartsAtHome }
{}

/// The walks of a pass, and the rows of a part, by the numbers of the stages.
pub fn walks_are_made()
    ensures { WalksAreMade }
{}

/// The moves of a walk from a part and to it tell what the part sends, and what it is sent.
pub fn own_moves_tell()
    ensures { OwnMovesTell }
{}

/// A row whose bodies are at home in a part, and there, changes no walk.
pub fn rows_stay()
    ensures { RowsStay }
{}

/// The visits of a pass leave alone what an impulse does.
pub fn visits_are_fair()
    ensures { VisitsAreFair }
{}

/// Whatever a step does to its bodies and rows, the same slots have movers, and the rows are where they were.
pub fn stands_are_reached()
    ensures { StandsAreReached }
{}

/// After any number of ticks, too.
pub fn ticks_are_reached()
    ensures { TicksAreReached }
{}

/// Before each stage of a pass bodies are handed on, so that each part has those of its rows; its visits are then those
/// of all rows. After the last stage all bodies go home.
pub fn passes_by_parts()
    ensures { PassesByParts }
{}

/// The run of all bodies, as each part sees it, is the run of the part; and its sums are those of the parts.
pub fn parts_are_runs()
    ensures { PartsAreRuns }
{}

/// What a step's caller is told of each part's run holds of the run of all bodies.
pub fn parts_step_all()
    ensures { PartsStepAll }
{}

/// What a part sends to another one in a step: the letters of each pass, one after another.
pub fn mail_is_sent()
    ensures { MailIsSent }
{}

/// Each body of the next letter has its number among those that are sent.
pub fn letters_follow()
    ensures { LettersFollow }
{}

/// A mover is read back from its own part, and any other body from the first. Each part has its rows of the run, in
/// their order.
pub fn runs_are_read_back()
    ensures { RunsAreReadBack }
{}
