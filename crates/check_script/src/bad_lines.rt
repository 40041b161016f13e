//! What is told of lines that are no requests.

use crate::assertions::same;
use json::Scratch;
use script_requests::{BadLine, request_of};
use std::alloc::Global;
use std::test::Fail;
use world_script_base::LineFault;

/// What is wrong with a line, in words.
fn told(alloc: Global, line: &[u8]) -> Result<String, Fail> {
    let mut scratch = Scratch::new(alloc);
    let told = match request_of(alloc, line, &mut scratch, false) {
        Err(LineFault::Bad(fault)) => BadLine(fault).to_string(alloc)?,
        _other => String::from_str(alloc, "a request")?,
    };
    Ok(told)
}

#[test]
fn says_why_a_line_is_bad(rt: HostRuntime) -> Result<(), Fail> {
    let lines: [(&[u8], &str); 29] = [
        (
            b"{\"do\":\"step\",\"ticks\":1.5}",
            "ticks: not a whole number of 64 bits",
        ),
        (b"{\"do\":\"step\"}", "ticks: missing"),
        (b"{\"do\":\"jump\"}", "do: no request has this name"),
        (
            b"{\"do\":\"ledger\",\"a\\u0009b\":1}",
            "\"a\\tb\": a key that doesn't belong here",
        ),
        (
            b"{\"do\":\"push\",\"body\":\"0.01\",\"by\":[0,0]}",
            "body: not an id",
        ),
        (b"{\"do\" 1}", "not JSON from byte 6 on"),
        (b"[1]", "not an object"),
        (
            b"{\"do\":\"create\",\"kind\":\"static\",\"at\":[0,0],\"shapes\":[{\"circle\":[0,0]}]}",
            "shapes[0]: radius: missing",
        ),
        (
            b"{\"do\":\"crowd\",\"each\":[{\"do\":\"step\"}],\"times\":1}",
            "each[0]: ticks: missing",
        ),
        (
            b"{\"do\":\"create\",\"kind\":\"static\",\"at\":[0,0],\"shapes\":[{\"polygon\":[[0,0],[9,0],[0,9]]}]}",
            "shapes[0]: none of the forms circle, capsule and segment",
        ),
        (b"{\"do\":\"\xff\"}", "not UTF-8 from byte 7 on"),
        (
            b"{\"do\":\"step\",\"ticks\":1e999}",
            "a number that is too large for JSON",
        ),
        (
            b"{\"do\":\"ledger\",\"a\":0,\"b\":0,\"c\":0,\"d\":0,\"e\":0,\"f\":0,\"g\":0,\"h\":0,\"i\":0,\"j\":0,\"k\":0,\"l\":0,\"m\":0,\"n\":0,\"o\":0,\"p\":0}",
            "p: more keys than any request has",
        ),
        (
            b"{\"do\":\"ledger\",\"abcdefghijklmnopqrstuvwxyz_abcdef\":1}",
            "\"abcdefghijklmnopqrstuvwxyz_abcde\": a key that doesn't belong here",
        ),
        (
            b"{\"do\":\"ledger\",\"abcdefghijklmnopqrstuvwxyz_abcde\":1}",
            "abcdefghijklmnopqrstuvwxyz_abcde: a key that doesn't belong here",
        ),
        (b"{\"do\":1}", "do: not a text"),
        (
            b"{\"do\":\"gravity\",\"by\":[0]}",
            "by: not a list of two whole numbers of 64 bits",
        ),
        (
            b"{\"do\":\"joint\",\"a\":\"0.1\",\"b\":\"1.1\",\"from\":[0,0],\"to\":[0,0],\"length\":1,\"collide\":1}",
            "collide: neither true nor false",
        ),
        (
            b"{\"do\":\"create\",\"kind\":\"heavy\",\"at\":[0,0],\"shapes\":[]}",
            "kind: no kind has this name",
        ),
        (
            b"{\"do\":\"create\",\"kind\":\"static\",\"at\":[0,0],\"shapes\":1}",
            "shapes: not a list of shapes",
        ),
        (
            b"{\"do\":\"create\",\"kind\":\"static\",\"at\":[0,0],\"shapes\":[{\"circle\":[0,0],\"radius\":9},1]}",
            "shapes: not a list of shapes",
        ),
        (
            b"{\"do\":\"create\",\"kind\":\"static\",\"at\":[0,0],\"shapes\":[{\"circle\":[0,0],\"radius\":9},{\"capsule\":[0,0],\"radius\":9}]}",
            "shapes[1]: capsule: not a list of two places",
        ),
        (
            b"{\"do\":\"create\",\"kind\":\"static\",\"at\":[0,0],\"shapes\":[{\"circle\":[0,0]},{\"capsule\":[0,0],\"radius\":9}]}",
            "shapes[0]: radius: missing",
        ),
        (
            b"{\"do\":\"create\",\"kind\":\"static\",\"at\":[0,0],\"shapes\":[{\"circle\":[0,0],\"radius\":9,\"group\":2147483648}]}",
            "shapes[0]: group: not a whole number of 32 bits",
        ),
        (
            b"{\"do\":\"crowd\",\"each\":[],\"times\":1}",
            "each: not a list of 1 to 16 requests",
        ),
        (
            b"{\"do\":\"crowd\",\"each\":[{\"do\":\"step\",\"ticks\":1}],\"times\":-1}",
            "times: not a whole number of 64 bits without sign",
        ),
        (
            b"{\"do\":\"crowd\",\"each\":[{\"do\":\"step\",\"ticks\":1}],\"times\":1001}",
            "times: not 1 to 1000",
        ),
        (
            b"{\"do\":\"crowd\",\"each\":[{\"do\":\"step\",\"ticks\":1},{\"do\":\"show\",\"body\":\"0.1\"}],\"times\":1}",
            "each[1]: do: no command of this name",
        ),
        (
            b"{\"do\":\"crowd\",\"each\":[{\"do\":\"create\",\"kind\":\"static\",\"at\":[0,0],\"shapes\":[{}]}],\"times\":1}",
            "each[0]: shapes[0]: none of the forms circle, capsule and segment",
        ),
    ];
    for (line, why) in lines.iter() {
        same(&rt, &told(rt.alloc(), line)?.as_str(), why);
    }
    Ok(())
}
