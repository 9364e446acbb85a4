//! What words ask for.

use mp_words::{Job, Make, Settings, WordsAnswer, read_words};
use std::alloc::Global;
use std::process::Abort;

/// What the words of a text ask for, with spaces between two.
fn asked(rt: &impl Abort, alloc: Global, text: &str) -> Result<Job, WordsAnswer> {
    let words: Result<Vec<String>, _> = text
        .split_ascii_whitespace()
        .map(|word| String::from_str(alloc, word))
        .try_collect(alloc);
    read_words(alloc, words.expect(rt, "memory is short").as_slice())
}

/// The window, the scale, the tile and the workers.
fn numbers_of(settings: Settings) -> [u32; 4] {
    [
        settings.window(),
        u32::from(settings.scale()),
        settings.tile(),
        settings.workers(),
    ]
}

const MADE: Make = Make {
    number: u64::MAX,
    count: 262_144,
};

#[test]
fn words_of_the_grammar_ask_for_a_job(rt: HostRuntime) {
    for (words, numbers, make) in [
        ("--window=003", [3, 0, 256, 4], None),
        (
            "--workers 32 --tile=1 --scale 9 --window 16384",
            [16_384, 9, 1, 32],
            None,
        ),
        (
            "--count 262144 --window 5 --generate=18446744073709551615 --tile 65536",
            [5, 0, 65_536, 4],
            Some(MADE),
        ),
    ] {
        let job = asked(&rt, rt.alloc(), words).expect(&rt, words);
        assert_eq!(rt; numbers_of(job.settings), numbers, "{words}");
        assert_eq!(rt; job.make, make, "{words}");
    }
}

#[test]
fn words_outside_the_grammar_ask_for_none(rt: HostRuntime) {
    for words in [
        "",
        "--window 2",
        "--window 16385",
        "--window 3 --window 3",
        "--window 3 --count 5",
        "--window +3",
        "--window 3 --",
        "--window 3 x",
    ] {
        let answer = asked(&rt, rt.alloc(), words).err();
        assert_eq!(rt; answer, Some(WordsAnswer::Words), "{words}");
    }
}
