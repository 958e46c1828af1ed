//! The numbers of some header words, which no clause spells out.

use bitflags::Flags;
use object_header::{Flag, FlagSet, Header, clear, is_set, pack, set, type_id, unpack};

#[test]
fn a_header_and_its_word(rt: HostRuntime) {
    let header = Header {
        type_id: 7,
        flags: FlagSet::TRACK.union(FlagSet::PINNED),
    };
    assert_eq!(rt; pack(header), 589831);
    assert_eq!(rt; unpack(589831), Some(header));
    assert_eq!(rt; unpack(67108864), None);
}

#[test]
fn a_flag_is_its_set_of_one(rt: HostRuntime) {
    for (flag, set) in [
        (Flag::Track, FlagSet::TRACK),
        (Flag::Visited, FlagSet::VISITED),
        (Flag::HasShadow, FlagSet::HAS_SHADOW),
        (Flag::Pinned, FlagSet::PINNED),
        (Flag::HasCards, FlagSet::HAS_CARDS),
        (Flag::CardsSet, FlagSet::CARDS_SET),
        (Flag::Free, FlagSet::FREE),
        (Flag::Shadow, FlagSet::SHADOW),
        (Flag::Order1, FlagSet::ORDER1),
        (Flag::Order2, FlagSet::ORDER2),
    ] {
        assert_eq!(rt; flag.mask(), (set.bits() as u64) << 16, "{flag:?}");
    }
}

#[test]
fn flags_of_a_word(rt: HostRuntime) {
    let word = set(7, Flag::Free);
    assert_eq!(rt; word, 4194311);
    assert!(rt; is_set(word, Flag::Free));
    assert!(rt; !is_set(word, Flag::CardsSet));
    assert_eq!(rt; clear(word, Flag::Free), 7);
    assert_eq!(rt; type_id(word), 7);
}
