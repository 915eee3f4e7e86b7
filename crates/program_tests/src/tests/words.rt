//! Lists of words, and what they ask for. More of them are cases of the program
//! (tests/cases/words.json).
use exec_words::{Command, Options, Order, read_words};

const DEFAULTS: Options = Options {
    workers: 4,
    window: 64,
    order: Order::Fifo,
};

const ALL_THREE: Options = Options {
    workers: 0,
    window: 256,
    order: Order::Lifo,
};

/// Whether the words ask for a run of the plan `p` with these options, and the summary or not.
fn is_run(words: &[&str], options: Options, summary: bool) -> bool {
    match read_words(words) {
        Some(
            Command::Run {
                plan,
                options: read,
                summary: printed,
            },
        ) => plan == "p" && read == options && printed == summary,
        _ => false,
    }
}

/// The number of records and the options of a run of the plan `p` over generated records.
fn gen_of(words: &[&str]) -> Option<(u32, Options)> {
    match read_words(words)? {
        Command::Gen {
            plan,
            records,
            options,
        } if plan == "p" => Some((records, options)),
        _ => None,
    }
}

/// Whether the words ask for such a run, of so many records and with these options.
fn is_gen(words: &[&str], records: u32, options: Options) -> bool {
    match gen_of(words) {
        Some((read, found)) => read == records && found == options,
        None => false,
    }
}

#[test]
fn a_run_has_a_plan_and_options_in_any_place(rt: HostRuntime) {
    let least = is_run(&["run", "p"], DEFAULTS, false);
    let words = &["run", "--summary", "p", "--order", "fifo"];
    let summary = is_run(words, DEFAULTS, true);
    let words = &["run", "--workers=0", "p", "--window", "256", "--order=lifo"];
    assert!(rt; least && summary && is_run(words, ALL_THREE, false));
}

#[test]
fn generated_records_have_a_number(rt: HostRuntime) {
    let most = is_gen(&["gen", "p", "1000000"], 1_000_000, DEFAULTS);
    let words = &[
        "gen",
        "--workers",
        "0",
        "p",
        "--window=256",
        "000000004",
        "--order=lifo",
    ];
    let few = is_gen(words, 4, ALL_THREE);
    assert!(rt; most && few && gen_of(&["gen", "p", "1000001"]).is_none());
}

#[test]
fn a_check_and_a_replay_have_a_file(rt: HostRuntime) {
    let check = matches!(
        read_words(&["check", "f"]),
        Some(Command::Check { file: _ })
    );
    let replay = matches!(
        read_words(&["replay", "f"]),
        Some(Command::Replay { file: _ })
    );
    let none = read_words(&["check", "f", "--summary"]).is_none();
    assert!(rt; check && replay && none);
}
