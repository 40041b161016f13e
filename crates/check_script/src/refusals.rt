//! What is told of requests that are refused, and of the calls of a crowd that are.

use crate::assertions::same;
use fixed_geom::Refusal;
use json::Scratch;
use script_requests::{CrowdRefusals, Request, explain, request_of};
use std::alloc::Global;
use std::test::Fail;

/// What a refusal of a request says, in words.
fn explained(alloc: Global, line: &[u8], refusal: Refusal) -> Result<String, Fail> {
    let mut scratch = Scratch::new(alloc);
    match request_of(alloc, line, &mut scratch, true) {
        Ok(request) => Ok(explain(&request, refusal).to_string(alloc)?),
        Err(_) => Err(Fail::from("no request")),
    }
}

#[test]
fn says_which_key_a_refusal_speaks_of(rt: HostRuntime) -> Result<(), Fail> {
    let lines: [(&[u8], Refusal, &str); 45] = [
        (
            b"{\"do\":\"step\",\"ticks\":9}",
            Refusal::OutOfRange,
            "refused 5: ticks: a number outside its limit",
        ),
        (
            b"{\"do\":\"create\",\"kind\":\"static\",\"at\":[0,0],\"shapes\":[{\"circle\":[0,0],\"radius\":9},{\"circle\":[0,0],\"radius\":9,\"friction\":600}]}",
            Refusal::OutOfRange,
            "refused 5: shapes[1]: friction: a number outside its limit",
        ),
        (
            b"{\"do\":\"create\",\"kind\":\"dynamic\",\"mass\":1,\"inertia\":0,\"at\":[0,0],\"shapes\":[{\"segment\":[[0,0],[9,0]]}]}",
            Refusal::BadShape,
            "refused 4: shapes[0]: segment: a shape that is not allowed",
        ),
        (
            b"{\"do\":\"create\",\"kind\":\"static\",\"at\":[0,0],\"shapes\":[]}",
            Refusal::BadShape,
            "refused 4: shapes: a shape that is not allowed",
        ),
        (
            b"{\"do\":\"create\",\"kind\":\"static\",\"at\":[68719476737,0],\"shapes\":[{\"circle\":[0,0],\"radius\":9}]}",
            Refusal::OutOfRange,
            "refused 5: at: a number outside its limit",
        ),
        (
            b"{\"do\":\"unjoin\",\"joint\":\"0.1\"}",
            Refusal::StaleHandle,
            "refused 2: joint: the id names nothing that lives",
        ),
        (
            b"{\"do\":\"joint\",\"a\":\"0.1\",\"b\":\"1.1\",\"from\":[0,0],\"to\":[0,0],\"length\":1}",
            Refusal::StaleHandle,
            "refused 2: a or b: the id names nothing that lives",
        ),
        (
            b"{\"do\":\"joint\",\"a\":\"0.1\",\"b\":\"1.1\",\"from\":[0,0],\"to\":[0,0],\"length\":1}",
            Refusal::SameBody,
            "refused 7: a and b: both ends are one body",
        ),
        (
            b"{\"do\":\"joint\",\"a\":\"0.1\",\"b\":\"1.1\",\"from\":[0,0],\"to\":[0,0],\"length\":1}",
            Refusal::BodyDisabled,
            "refused 8: a or b: the body is disabled",
        ),
        (
            b"{\"do\":\"joint\",\"a\":\"0.1\",\"b\":\"1.1\",\"from\":[16777217,0],\"to\":[0,0],\"length\":1}",
            Refusal::OutOfRange,
            "refused 5: from: a number outside its limit",
        ),
        (
            b"{\"do\":\"joint\",\"a\":\"0.1\",\"b\":\"1.1\",\"from\":[0,0],\"to\":[0,-16777217],\"length\":1}",
            Refusal::OutOfRange,
            "refused 5: to: a number outside its limit",
        ),
        (
            b"{\"do\":\"joint\",\"a\":\"0.1\",\"b\":\"1.1\",\"from\":[0,0],\"to\":[0,0],\"length\":-1}",
            Refusal::OutOfRange,
            "refused 5: length: a number outside its limit",
        ),
        (
            b"{\"do\":\"push\",\"body\":\"0.1\",\"by\":[0,0]}",
            Refusal::StaleHandle,
            "refused 2: body: the id names nothing that lives",
        ),
        (
            b"{\"do\":\"push\",\"body\":\"0.1\",\"by\":[0,0]}",
            Refusal::NotAMover,
            "refused 6: body: the body does not move",
        ),
        (
            b"{\"do\":\"push\",\"body\":\"0.1\",\"by\":[0,0]}",
            Refusal::OutOfRange,
            "refused 5: by: a number outside its limit",
        ),
        (
            b"{\"do\":\"push\",\"body\":\"0.1\",\"by\":[0,0]}",
            Refusal::TooFast,
            "refused 9: by: a momentum beyond its limit",
        ),
        (
            b"{\"do\":\"push_at\",\"body\":\"0.1\",\"by\":[0,0],\"offset\":[0,0]}",
            Refusal::OutOfRange,
            "refused 5: by or offset: a number outside its limit",
        ),
        (
            b"{\"do\":\"gravity\",\"by\":[65537,0]}",
            Refusal::OutOfRange,
            "refused 5: by: a number outside its limit",
        ),
        (
            b"{\"do\":\"wake\",\"body\":\"0.1\"}",
            Refusal::BodyDisabled,
            "refused 8: body: the body is disabled",
        ),
        (
            b"{\"do\":\"set_velocity\",\"body\":\"0.1\",\"velocity\":[0,0],\"spin\":0}",
            Refusal::NotKinematic,
            "refused 15: body: the body has no velocity of its own",
        ),
        (
            b"{\"do\":\"set_velocity\",\"body\":\"0.1\",\"velocity\":[1048577,0],\"spin\":0}",
            Refusal::OutOfRange,
            "refused 5: velocity: a number outside its limit",
        ),
        (
            b"{\"do\":\"set_velocity\",\"body\":\"0.1\",\"velocity\":[0,0],\"spin\":268435457}",
            Refusal::OutOfRange,
            "refused 5: spin: a number outside its limit",
        ),
        (
            b"{\"do\":\"set_pose\",\"body\":\"0.1\",\"at\":[0,0],\"facing\":[0,0]}",
            Refusal::OutOfRange,
            "refused 5: facing: a number outside its limit",
        ),
        (
            b"{\"do\":\"set_pose\",\"body\":\"0.1\",\"at\":[68719476737,0],\"facing\":[1073741824,0]}",
            Refusal::OutOfRange,
            "refused 5: at: a number outside its limit",
        ),
        (
            b"{\"do\":\"create\",\"kind\":\"static\",\"facing\":[0,0],\"at\":[0,0],\"shapes\":[{\"circle\":[0,0],\"radius\":9}]}",
            Refusal::OutOfRange,
            "refused 5: facing: a number outside its limit",
        ),
        (
            b"{\"do\":\"create\",\"kind\":\"dynamic\",\"mass\":0,\"inertia\":0,\"at\":[0,0],\"shapes\":[{\"circle\":[0,0],\"radius\":9}]}",
            Refusal::OutOfRange,
            "refused 5: mass: a number outside its limit",
        ),
        (
            b"{\"do\":\"create\",\"kind\":\"dynamic\",\"mass\":1,\"inertia\":-1,\"at\":[0,0],\"shapes\":[{\"circle\":[0,0],\"radius\":9}]}",
            Refusal::OutOfRange,
            "refused 5: inertia: a number outside its limit",
        ),
        (
            b"{\"do\":\"create\",\"kind\":\"kinematic\",\"velocity\":[1048577,0],\"at\":[0,0],\"shapes\":[{\"circle\":[0,0],\"radius\":9}]}",
            Refusal::OutOfRange,
            "refused 5: velocity: a number outside its limit",
        ),
        (
            b"{\"do\":\"create\",\"kind\":\"kinematic\",\"spin\":268435457,\"at\":[0,0],\"shapes\":[{\"circle\":[0,0],\"radius\":9}]}",
            Refusal::OutOfRange,
            "refused 5: spin: a number outside its limit",
        ),
        (
            b"{\"do\":\"create\",\"kind\":\"static\",\"at\":[0,0],\"shapes\":[{\"capsule\":[[0,0],[0,0]],\"radius\":9}]}",
            Refusal::BadShape,
            "refused 4: shapes[0]: capsule: a shape that is not allowed",
        ),
        (
            b"{\"do\":\"create\",\"kind\":\"static\",\"at\":[0,0],\"shapes\":[{\"circle\":[0,0],\"radius\":-1}]}",
            Refusal::BadShape,
            "refused 4: shapes[0]: radius: a shape that is not allowed",
        ),
        (
            b"{\"do\":\"create\",\"kind\":\"static\",\"at\":[0,0],\"shapes\":[{\"circle\":[0,0],\"radius\":9,\"restitution\":257}]}",
            Refusal::OutOfRange,
            "refused 5: shapes[0]: restitution: a number outside its limit",
        ),
        (
            b"{\"do\":\"create\",\"kind\":\"static\",\"at\":[0,0],\"shapes\":[{\"circle\":[16777217,0],\"radius\":9}]}",
            Refusal::OutOfRange,
            "refused 5: shapes[0]: circle: a number outside its limit",
        ),
        (
            b"{\"do\":\"create\",\"kind\":\"static\",\"at\":[0,0],\"shapes\":[{\"circle\":[0,0],\"radius\":9},{\"circle\":[0,0],\"radius\":9},{\"circle\":[0,0],\"radius\":9},{\"circle\":[0,0],\"radius\":9},{\"circle\":[0,0],\"radius\":9},{\"circle\":[0,0],\"radius\":9},{\"circle\":[0,0],\"radius\":9},{\"circle\":[0,0],\"radius\":9},{\"circle\":[0,0],\"radius\":9}]}",
            Refusal::BadShape,
            "refused 4: shapes: a shape that is not allowed",
        ),
        (
            b"{\"do\":\"create\",\"kind\":\"static\",\"at\":[0,0],\"shapes\":[{\"circle\":[0,0],\"radius\":9}]}",
            Refusal::TooMany,
            "refused 3: no slot can be given out",
        ),
        (
            b"{\"do\":\"save\"}",
            Refusal::NoMemory,
            "refused 1: no memory",
        ),
        (
            b"{\"do\":\"load\",\"world\":{}}",
            Refusal::BadFile(1),
            "refused 12: world: the saved world breaks clause 1",
        ),
        (
            b"{\"do\":\"ray\",\"from\":[0,0],\"along\":[0,0]}",
            Refusal::OutOfRange,
            "refused 5: from or along: a number outside its limit",
        ),
        (
            b"{\"do\":\"region\",\"lo\":[0,0],\"hi\":[0,0]}",
            Refusal::OutOfRange,
            "refused 5: lo or hi: a number outside its limit",
        ),
        (
            b"{\"do\":\"keep\",\"number\":16}",
            Refusal::OutOfRange,
            "refused 5: number: a number outside its limit",
        ),
        (
            b"{\"do\":\"back\",\"number\":1}",
            Refusal::StaleHandle,
            "refused 2: number: no world is kept under it",
        ),
        (
            b"{\"do\":\"step\",\"ticks\":9,\"ids\":true}",
            Refusal::OutOfRange,
            "refused 5: ticks: a number outside its limit",
        ),
        (
            b"{\"do\":\"ray\",\"from\":[0,0],\"along\":[0,0],\"ids\":true}",
            Refusal::OutOfRange,
            "refused 5: from or along: a number outside its limit",
        ),
        (
            b"{\"do\":\"ray\",\"from\":[0,0],\"along\":[0,0],\"without\":\"0.1\"}",
            Refusal::StaleHandle,
            "refused 2: without: the id names nothing that lives",
        ),
        (
            b"{\"do\":\"region\",\"lo\":[0,0],\"hi\":[0,0],\"ids\":true}",
            Refusal::OutOfRange,
            "refused 5: lo or hi: a number outside its limit",
        ),
    ];
    for (line, refusal, why) in lines.iter() {
        same(&rt, &explained(rt.alloc(), line, *refusal)?.as_str(), why);
    }
    Ok(())
}

/// How many calls of a crowd were refused, in words, where four threads make its calls and 28 of these were accepted.
fn refused_of_crowd(alloc: Global, line: &[u8]) -> Result<String, Fail> {
    let mut scratch = Scratch::new(alloc);
    match request_of(alloc, line, &mut scratch, false) {
        Ok(Request::Crowd(def)) => Ok(CrowdRefusals::of(&def, 4, 28).to_string(alloc)?),
        _other => Err(Fail::from("no crowd")),
    }
}

#[test]
fn says_how_many_calls_of_a_crowd_were_refused(rt: HostRuntime) -> Result<(), Fail> {
    let line =
        b"{\"do\":\"crowd\",\"each\":[{\"do\":\"step\",\"ticks\":1},{\"do\":\"step\",\"ticks\":9}],\"times\":5}";
    same(
        &rt,
        &refused_of_crowd(rt.alloc(), line)?.as_str(),
        &"each: 12 of 40 calls were refused",
    );
    Ok(())
}
