//! Settings by their numbers, which are their places in `Settings`.
ghost use Rattle.std.specs.Prelude.{◌≡◌, slice_get};
ghost use Rattle.store_model.specs.Progress.{with_setting};
ghost use Rattle.object_model.specs.SettingRanges.{is_outside, ranges};

use store_model::Settings;

/// The least and the greatest value of each setting, in their order. (This project's own.)
const RANGES: [(u64, u64); 13] = [
    (16, 1_048_576),
    (8, 1_048_576),
    (64, 16_777_216),
    (1, 1_048_576),
    (1, 16_777_216),
    (1, 65_536),
    (0, 1024),
    (64, 8192),
    (1, 1024),
    (2, 4096),
    (1, 65_536),
    (1, 65_536),
    (1, 256),
];

/// Whether a value lies outside the range of a setting, or there is no such setting.
pub(crate) fn is_outside(name: u8, value: u64) -> bool
    ensures { result ≡ is_outside (slice_get ranges name) value }
{
    match RANGES.get(usize::from(name)) {
        None => true,
        Some(range) => value < range.0 || range.1 < value,
    }
}

/// The settings with another value for one of them.
pub(crate) fn with_setting(settings: &Settings, name: u8, value: u64) -> Settings
    ensures { result ≡ with_setting settings.now name value }
{
    let s = *settings;
    match name {
        0 => Settings {
            nursery: value,
            ..s
        },
        1 => Settings { young: value, ..s },
        2 => Settings { limit: value, ..s },
        3 => Settings {
            increment: value,
            ..s
        },
        4 => Settings {
            minimum: value,
            ..s
        },
        5 => Settings { sweep: value, ..s },
        6 => Settings { pins: value, ..s },
        7 => Settings { page: value, ..s },
        8 => Settings { arena: value, ..s },
        9 => Settings { small: value, ..s },
        10 => Settings { card: value, ..s },
        11 => Settings { roots: value, ..s },
        _ => Settings { queues: value, ..s },
    }
}
