//! Scenarios that are made from a number.

use lu_base::split_at_byte;
use lu_scene::{print_scene, read_scene, storm};
use std::test::Fail;

/// After the opening come the lines of the first two words of the seed 0, each with a run. The numbers of these lines
/// in the text, from 0, of which the first 7 are the head, and what they are.
const LINES: [(usize, &str); 5] = [
    (26, "run"),
    (27, "call 3.3 stat /f0"),
    (28, "run"),
    (29, "call 0.2 cut 1 73728"),
    (30, "run"),
];

#[test]
fn the_storm_of_zero_begins_so(rt: HostRuntime) -> Result<(), Fail> {
    let alloc = rt.alloc();
    let text = print_scene(alloc, &storm(alloc, 0)?)?;
    let lines = split_at_byte(alloc, text.as_slice(), b'\n')?;
    for (place, wanted) in LINES {
        let Some(line) = lines.get(place) else {
            return Err(Fail::from("no line"));
        };
        assert!(rt; *line == wanted.as_bytes(), "{wanted}");
    }
    Ok(())
}

/// The numbers of storms.
const SEEDS: [u64; 4] = [0, 1, 12345, u64::MAX];

/// A storm is a scenario: its text is read as the same scene.
#[test]
fn storms_are_scenarios(rt: HostRuntime) -> Result<(), Fail> {
    let alloc = rt.alloc();
    for seed in SEEDS {
        let scene = storm(alloc, seed)?;
        let text = print_scene(alloc, &scene)?;
        assert!(rt; read_scene(alloc, text.as_slice()) == Ok(scene));
    }
    Ok(())
}
