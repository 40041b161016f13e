//! Texts that may be a saved world, and texts that can't be one.

use crate::assertions::same;
use json::Scratch;
use std::test::Fail;
use world_script_base::may_be_world;

const REST: &str =
    r#","joints":[],"contacts":[],"gravity":[0,0],"version":2,"call":0,"step":0,"ledger":{"clamp":["0","0"],
"command":["0","0"],"departed":["0","0"],"gravity":["0","0"],"immovable":["0","0"],"rest":["0","0"]}}"#;

#[test]
fn tells_what_may_be_a_world(rt: HostRuntime) -> Result<(), Fail> {
    let bodies: [(&str, bool); 9] = [
        ("[]", true),
        (r#"[{"generation":1}]"#, true),
        (r#"[{"generation":[[{}],1],"generation":1}]"#, true),
        (r#"[{"generation":1,"generation":[1]}]"#, false),
        (r#"[{"body":1}]"#, false),
        (r#"[{"p":1}]"#, false),
        ("[1]", false),
        ("{}", false),
        (r#"[{"generation":1,"body":{"kind":"static"}}]"#, false),
    ];
    let mut scratch = Scratch::new(rt.alloc());
    for (list, may_be) in bodies.iter() {
        let text = format!(in rt.alloc(); "{{\"bodies\":{list}{REST}")?;
        same(&rt, &may_be_world(text.as_str(), &mut scratch)?, may_be);
    }
    Ok(())
}
