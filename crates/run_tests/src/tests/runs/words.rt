//! Tests of the random words of shuffles. The expected words come from a second implementation of the generator, which
//! was written from its authors' papers in another language.
use run_program::words;
use std::test::Fail;

/// The expected words of each seed, with their places in the list of words.
static EXPECTED: [(u64, &[(usize, u64)]); 3] = [
    (
        0,
        &[
            (0, 5987356902031041503),
            (1, 7051070477665621255),
            (255, 5346014188588260017),
            (256, 6742100254743153930),
            (511, 10520422148762199969),
        ],
    ),
    (
        1,
        &[
            (0, 14971601782005023387),
            (1, 13781649495232077965),
            (255, 16910925255402200600),
            (256, 17741839516657731290),
            (511, 3101094592067578042),
        ],
    ),
    (
        18446744073709551615,
        &[
            (0, 6254647548650071986),
            (1, 16610832622747802512),
            (255, 18403091406154996536),
            (256, 10529682319158796634),
            (511, 14527103995174261889),
        ],
    ),
];

#[test]
fn gives_the_generators_words(rt: HostRuntime) -> Result<(), Fail> {
    for (seed, expected) in EXPECTED.iter() {
        let words = words(rt.alloc(), *seed, 2)?;
        let are_there = words.len() == 512 && has_words(words.as_slice(), expected);
        assert!(rt; are_there, "seed {seed}");
    }
    Ok(())
}

/// Whether `words` has each expected word at its place.
fn has_words(words: &[u64], expected: &[(usize, u64)]) -> bool {
    for (place, word) in expected {
        if words.get(*place) != Some(word) {
            return false;
        }
    }
    true
}
