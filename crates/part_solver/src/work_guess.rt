//! How much work a step is, guessed by some of its constraints. No contract sees it.

ghost use Rattle.std.specs.Prelude.{◌≡◌};

use contacts_base::{Hint, SplitContacts};
use graph_colours::{Colours, Member, OVERFLOW};
use plain_world::Constraint;

/// So many constraints of each colour are looked at.
const SAMPLES: usize = 4;

/// What a joint is counted as.
const JOINT: usize = 1;

/// What a point of a contact is counted as: its visits take some twice as long as those of a joint.
const POINT: usize = 2;

/// What a constraint is counted as.
fn work_of(constraint: Constraint, contacts: &SplitContacts) -> usize {
    match constraint {
        Constraint::Joint(_) => JOINT,
        Constraint::Contact(key) => {
            let mut hint = Hint { long: 0, short: 0 };
            match contacts.find(&mut hint, key) {
                None => 0,
                Some(entry) => match entry.contact.second() {
                    None => POINT,
                    Some(_) => POINT + POINT,
                },
            }
        }
    }
}

/// What the constraints of a colour are counted as, by some that stand evenly among them.
fn work_of_colour(members: &[Member<Constraint>], contacts: &SplitContacts) -> usize {
    let mut sum: usize = 0;
    for sample in 0..SAMPLES {
        let place = members.len().saturating_mul(sample) / SAMPLES;
        if let Some(member) = members.get(place) {
            sum = sum.saturating_add(work_of(member.id, contacts));
        }
    }
    sum.saturating_mul(members.len()) / SAMPLES
}

/// What all constraints of a step are counted as, less its movers: each of them costs a step by parts, and saves it
/// little.
pub(crate) fn guess_work(
    colours: &Colours<Constraint>,
    contacts: &SplitContacts,
    movers: usize,
) -> usize
    requires flushed { colours.now.pending ≡ 0 }
{
    let mut work: usize = 0;
    for colour in 0..OVERFLOW + 1 {
        let members = colours.members(colour);
        work = work.saturating_add(work_of_colour(members, contacts));
    }
    work.saturating_sub(movers)
}
