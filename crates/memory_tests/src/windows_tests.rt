//! Tests files of windows that are read, and files that are refused.
use std::alloc::Global;
use windows::{WindowFault, Windows};

const EIGHT_KEYS: &str =
    "initial_concurrence = 1\nfinal_concurrence = 2\nconflict_restriction = 3\nconflict_resolution = 4\nconflict_expiration = 5\ncancellation_initial = 6\ncancellation_final = 7\npending_retention = 8\n";

// Reads a file of the eight keys and this end.
fn read_with(alloc: Global, end: &str) -> Result<Windows, WindowFault> {
    match format!(in alloc; "{EIGHT_KEYS}{end}") {
        Ok(text) => Windows::from_toml(alloc, text.as_str()),
        Err(_) => Err(WindowFault::NoMemory),
    }
}

fn minutes_of(windows: &Windows) -> [u32; 9] {
    [
        windows.initial_concurrence.minutes,
        windows.final_concurrence.minutes,
        windows.conflict_restriction.minutes,
        windows.conflict_resolution.minutes,
        windows.conflict_expiration.minutes,
        windows.cancellation_initial.minutes,
        windows.cancellation_final.minutes,
        windows.pending_retention.minutes,
        windows.broadcast.minutes,
    ]
}

// An end of the file, and the name of its fault.
static ENDS: [(&str, &str); 14] = [
    ("broadcast = 1", "read"),
    ("broadcast = 525600", "read"),
    ("", "missing_key"),
    ("broadcast = 0", "out_of_range"),
    ("broadcast = 525601", "out_of_range"),
    ("broadcast = -15", "out_of_range"),
    ("broadcast = 15.0", "not_whole"),
    ("broadcast = \"15\"", "not_whole"),
    ("broadcast = 15\nother = 1", "unknown_key"),
    ("broadcast = 0\nother = 1.5", "unknown_key"),
    ("other = 1", "missing_key"),
    ("broadcast 15", "syntax"),
    ("broadcast = 15\nbroadcast = 15", "syntax"),
    ("broadcast = 9223372036854775808", "syntax"),
];

// Returns the first end with another outcome.
fn first_misread(alloc: Global) -> Option<&'static str> {
    for (end, expected) in &ENDS {
        let outcome = match read_with(alloc, end) {
            Ok(_) => "read",
            Err(fault) => fault.name(),
        };
        if outcome != *expected {
            return Some(end);
        }
    }
    None
}

#[test]
fn files_are_read_or_the_least_fault_is_reported(rt: HostRuntime) {
    let windows = read_with(rt.alloc(), "broadcast = 525600");
    let minutes = windows.map(|windows| minutes_of(&windows));
    assert_eq!(rt; minutes, Ok([1, 2, 3, 4, 5, 6, 7, 8, 525_600]));
    assert_eq!(rt; first_misread(rt.alloc()), None);
}
