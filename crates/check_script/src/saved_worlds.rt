//! What is told of a saved world that breaks a clause: the place in it.

use crate::assertions::same;
use std::alloc::Global;
use std::test::Fail;
use world_script_base::broken_path;

/// The lists of a saved world of some version, each as what stands between its brackets.
#[derive(Clone, Copy)]
struct Lists<'a> {
    version: u32,
    bodies: &'a str,
    joints: &'a str,
    contacts: &'a str,
}

/// A saved world with these lists, after one step.
fn world_with(alloc: Global, lists: Lists) -> Result<String, Fail> {
    let Lists {
        version,
        bodies,
        joints,
        contacts,
    } = lists;
    let world = format!(in alloc;
        r#"{{"version":{version},"gravity":[0,0],"call":1,"step":1,"bodies":[{bodies}],"joints":[{joints}],"contacts":[{contacts}],
"ledger":{{"clamp":["0","0"],"command":["0","0"],"departed":["0","0"],"gravity":["0","0"],"immovable":["0","0"],"rest":["0","0"]}}}}"#
    )?;
    Ok(world)
}

/// The place at which a saved world breaks a clause by itself, in words.
fn place_among(alloc: Global, lists: Lists) -> Result<String, Fail> {
    let world = world_with(alloc, lists)?;
    match broken_path(alloc, world.as_str()) {
        Ok(Some(place)) => Ok(place.to_string(alloc)?),
        Ok(None) => Ok(String::from_str(alloc, "none")?),
        Err(_) => Err(Fail::from("no memory")),
    }
}

/// The same of one whose second slot of a body has this object.
fn place_in(alloc: Global, second: &str) -> Result<String, Fail> {
    let bodies = format!(in alloc; r#"{{"generation":2}},{second}"#)?;
    let lists = Lists {
        version: 2,
        bodies: bodies.as_str(),
        joints: "",
        contacts: "",
    };
    place_among(alloc, lists)
}

/// A slot with a body whose second shape doesn't lie in its box.
const BOX_TOO_SMALL: &str =
    r#"{"body":{"asleep":false,"at":[0,0],"enabled":true,"facing":[1073741824,0],"inertia":0,"island":null,
"kind":"static","l":"0","loose":false,"mass":0,"p":[0,0],"shapes":[
{"category":1,"circle":[0,0],"fat":[[-9,-9],[9,9]],"friction":0,"group":0,"mask":1,"radius":9,"restitution":0},
{"category":1,"circle":[0,0],"fat":[[-8,-9],[9,9]],"friction":0,"group":0,"mask":1,"radius":9,"restitution":0}],"timer":0},"generation":1}"#;

/// A slot with a body whose facing isn't as long as one is.
const LONG_FACING: &str =
    r#"{"body":{"asleep":false,"at":[0,0],"enabled":true,"facing":[1073741824,1073741824],"inertia":0,
"island":null,"kind":"static","l":"0","loose":false,"mass":0,"p":[0,0],"shapes":[
{"category":1,"circle":[0,0],"fat":[[-9,-9],[9,9]],"friction":0,"group":0,"mask":1,"radius":9,"restitution":0}],"timer":0},"generation":1}"#;

#[test]
fn says_where_a_saved_world_breaks_a_clause(rt: HostRuntime) -> Result<(), Fail> {
    let seconds: [(&str, &str); 7] = [
        ("{\"generation\":3}", "none"),
        ("{\"generation\":null}", "bodies[1].generation"),
        ("{\"generation\":0}", "bodies[1].generation"),
        ("{\"generation\":3,\"key\":0}", "bodies[1]"),
        ("[]", "bodies[1]"),
        (BOX_TOO_SMALL, "bodies[1].body.shapes[1].fat"),
        (LONG_FACING, "bodies[1].body.facing"),
    ];
    for (second, place) in seconds.iter() {
        same(&rt, &place_in(rt.alloc(), second)?.as_str(), place);
    }
    Ok(())
}

/// Two static bodies.
const TWO_BODIES: &str =
    r#"{"body":{"asleep":false,"at":[0,0],"enabled":true,"facing":[1073741824,0],"inertia":0,"island":null,
"kind":"static","l":"0","loose":false,"mass":0,"p":[0,0],"shapes":[
{"category":1,"circle":[0,0],"fat":[[-9,-9],[9,9]],"friction":0,"group":0,"mask":1,"radius":9,"restitution":0}],"timer":8},"generation":1},
{"body":{"asleep":false,"at":[0,0],"enabled":true,"facing":[1073741824,0],"inertia":0,"island":null,
"kind":"static","l":"0","loose":false,"mass":0,"p":[0,0],"shapes":[
{"category":1,"circle":[0,0],"fat":[[-9,-9],[9,9]],"friction":0,"group":0,"mask":1,"radius":9,"restitution":0}],"timer":0},"generation":1}"#;

/// The same, of which the first has been slow for more ticks than a step has.
const SLOW_FOR_TOO_LONG: &str =
    r#"{"body":{"asleep":false,"at":[0,0],"enabled":true,"facing":[1073741824,0],"inertia":0,"island":null,
"kind":"static","l":"0","loose":false,"mass":0,"p":[0,0],"shapes":[
{"category":1,"circle":[0,0],"fat":[[-9,-9],[9,9]],"friction":0,"group":0,"mask":1,"radius":9,"restitution":0}],"timer":9},"generation":1}"#;

/// A joint that is too short.
const NO_LENGTH: &str =
    r#"{"generation":1,"joint":{"a":"0.1","b":"1.1","collide":false,"colour":null,"from":[0,0],
"impulse":0,"length":-1,"to":[0,0]}}"#;

/// A joint of a colour that version 1 doesn't have.
const COLOUR_13: &str =
    r#"{"generation":1,"joint":{"a":"0.1","b":"1.1","collide":false,"colour":13,"from":[0,0],
"impulse":0,"length":9,"to":[0,0]}}"#;

/// A contact whose second point pulls.
const PULLING: &str = r#"{"a":[0,0],"b":[1,0],"colour":null,"points":[
{"candidate":0,"normal":[0,1073741824],"push":0,"ra":[0,0],"rb":[0,0],"sep":0,"slip":0},
{"candidate":1,"normal":[0,1073741824],"push":-1,"ra":[0,0],"rb":[0,0],"sep":0,"slip":0}],"touching":true}"#;

/// A contact that touches by a number.
const TOUCHING_1: &str = r#"{"a":[0,0],"b":[1,0],"colour":null,"points":[],"touching":1}"#;

/// Lists of a saved world, and the place that breaks a clause by itself.
type Places = (Lists<'static>, &'static str);

const fn lists_of(
    version: u32,
    bodies: &'static str,
    joints: &'static str,
    contacts: &'static str,
) -> Lists<'static> {
    Lists {
        version,
        bodies,
        joints,
        contacts,
    }
}

#[test]
fn says_which_list_of_a_saved_world_breaks_a_clause(rt: HostRuntime) -> Result<(), Fail> {
    let places: [Places; 7] = [
        (lists_of(2, TWO_BODIES, "", ""), "none"),
        (
            lists_of(2, SLOW_FOR_TOO_LONG, "", ""),
            "bodies[0].body.timer",
        ),
        (
            lists_of(2, TWO_BODIES, NO_LENGTH, PULLING),
            "joints[0].joint.length",
        ),
        (lists_of(2, "", "", PULLING), "contacts[0].points[1].push"),
        (
            lists_of(2, "", NO_LENGTH, TOUCHING_1),
            "contacts[0].touching",
        ),
        (
            lists_of(1, TWO_BODIES, COLOUR_13, ""),
            "joints[0].joint.colour",
        ),
        (lists_of(2, TWO_BODIES, COLOUR_13, ""), "none"),
    ];
    for (lists, place) in places.iter() {
        same(&rt, &place_among(rt.alloc(), *lists)?.as_str(), place);
    }
    Ok(())
}
