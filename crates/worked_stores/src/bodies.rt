// Bodies that no head allows, and that are texts all the same.
use crate::slots::{FRONT, MEMORY, holds};
use image_text::{body_of, read_body};
use std::alloc::Global;
use std::process::Abort;

/// What stands behind the catalogue: requests whose numbers may not be carried, which is no matter of the text.
const READ: [&str; 2] = [
    "held 9 add 0 \"\"\nheld 9 add 0 \"\"\nheld 0 add 0 \"\"\n",
    "held 9223372036854775807 add 0 \" a  b \"\n",
];

/// The catalogue with these lines behind it.
fn with_front(rt: &impl Abort, alloc: Global, lines: &str) -> Vec<u8> {
    let mut body = Vec::from_slice(alloc, FRONT.as_bytes()).expect(rt, MEMORY);
    body.extend_from_slice(lines.as_bytes()).expect(rt, MEMORY);
    body
}

/// Whether these bytes are a body that is written again as it stands.
fn is_kept(rt: &impl Abort, alloc: Global, body: &[u8]) -> bool {
    let Some((catalog, tables, held)) = read_body(alloc, body).expect(rt, MEMORY) else {
        return false;
    };
    let again = body_of(alloc, &catalog, &tables, held.as_slice()).expect(rt, MEMORY);
    again.as_slice() == body
}

#[test]
fn texts_of_values_are_read(rt: HostRuntime) {
    for lines in READ {
        let body = with_front(&rt, rt.alloc(), lines);
        let kept = is_kept(&rt, rt.alloc(), body.as_slice());
        holds(&rt, lines, kept);
    }
}
