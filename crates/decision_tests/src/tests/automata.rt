//! The automaton of a sequence: its slots, what follows them, the bytes on which it goes on.

use sig_auto::{Auto, accepts_empty, first_bytes};
use sig_bits::{ByteClass, FromRead, Groups};
use sig_table::{Sequence, SigId, Table};
use std::alloc::Global;

const HEADER: &[u8] = b"puid,signature,position,offset,max_offset,expression\nfmt/1,1,";

// The table of the one sequence with this position and this expression.
fn table_of(alloc: Global, placed: &str) -> Option<Table> {
    let mut signatures = HEADER.to_vec(alloc).ok()?;
    signatures.extend_from_slice(placed.as_bytes()).ok()?;
    let mut signatures = FromRead::new(signatures.as_slice());
    let mut priorities = FromRead::new(b"higher,lower\n".as_slice());
    Table::load(alloc, &mut signatures, &mut priorities).ok()
}

// Its first sequence.
fn first_of(table: &Table) -> Option<&Sequence> {
    if table.signature_count() == 0 {
        return None;
    }
    table.sequences_of(SigId(0)).first()
}

// The automaton of that sequence.
fn automaton(alloc: Global, placed: &str) -> Option<Auto> {
    let table = table_of(alloc, placed)?;
    match first_of(&table) {
        Some(sequence) => Auto::of(alloc, sequence).ok(),
        None => None,
    }
}

// Whether these states, and no others, follow p.
fn is_followed_by(auto: &Auto, p: u32, followers: &[u32]) -> bool {
    for q in 0..=auto.slots() + 1 {
        if auto.follows(p, q) != followers.contains(&q) {
            return false;
        }
    }
    true
}

// Whether slot q takes the bytes from the first to the last, and no others.
fn takes(auto: &Auto, q: u32, first: u8, last: u8) -> bool {
    if q == 0 || auto.slots() < q {
        return false;
    }
    let class = auto.class(q);
    for byte in 0..=255 {
        if class.contains(byte) != (first <= byte && byte <= last) {
            return false;
        }
    }
    true
}

// An automaton: its sequence, how many slots it has, the first and the last byte that some slots
// take, the states that follow some, and the accepting states, if it says them.
struct Made {
    placed: &'static str,
    slots: u32,
    classes: &'static [(u32, u8, u8)],
    followers: &'static [(u32, &'static [u32])],
    accepting: Option<&'static [u32]>,
}

fn has_classes(auto: &Auto, classes: &[(u32, u8, u8)]) -> bool {
    for (q, first, last) in classes {
        if !takes(auto, *q, *first, *last) {
            return false;
        }
    }
    true
}

fn has_followers(auto: &Auto, followers: &[(u32, &[u32])]) -> bool {
    for (p, states) in followers {
        if !is_followed_by(auto, *p, states) {
            return false;
        }
    }
    true
}

// Whether it accepts by these states alone.
fn accepts_by(auto: &Auto, states: &[u32]) -> bool {
    for p in 0..=auto.slots() {
        if auto.accepting(p) != states.contains(&p) {
            return false;
        }
    }
    true
}

// Whether the automaton is made so.
fn is_made_so(alloc: Global, made: &Made) -> Option<bool> {
    let auto = automaton(alloc, made.placed)?;
    let accepts = match made.accepting {
        Some(states) => accepts_by(&auto, states),
        None => true,
    };
    Some(
        accepts
            && auto.slots() == made.slots
            && has_classes(&auto, made.classes)
            && has_followers(&auto, made.followers),
    )
}

const LIST: &Made = &Made {
    placed: "BOF,0,,(41|4142)43",
    slots: 5,
    classes: &[
        (1, 0x41, 0x41),
        (2, 0x41, 0x41),
        (3, 0x42, 0x42),
        (4, 0x43, 0x43),
        (5, 0, 255),
    ],
    followers: &[
        (0, &[1, 2]),
        (1, &[4]),
        (2, &[3]),
        (3, &[4]),
        (4, &[5]),
        (5, &[5]),
    ],
    accepting: Some(&[4, 5]),
};

#[test]
fn the_slots_of_a_list(rt: HostRuntime) {
    assert!(rt; is_made_so(rt.alloc(), LIST) == Some(true));
}

const GAP: &Made = &Made {
    placed: "BOF,0,,41{1-2}42",
    slots: 5,
    classes: &[
        (1, 0x41, 0x41),
        (2, 0, 255),
        (3, 0, 255),
        (4, 0x42, 0x42),
        (5, 0, 255),
    ],
    followers: &[
        (0, &[1]),
        (1, &[2]),
        (2, &[3, 4]),
        (3, &[4]),
        (4, &[5]),
        (5, &[5]),
    ],
    accepting: Some(&[4, 5]),
};

#[test]
fn the_slots_of_a_gap_with_a_greatest_length(rt: HostRuntime) {
    assert!(rt; is_made_so(rt.alloc(), GAP) == Some(true));
}

const FROM_END: &Made = &Made {
    placed: "EOF,0,2,4142",
    slots: 5,
    classes: &[
        (1, 0, 255),
        (2, 0x41, 0x41),
        (3, 0x42, 0x42),
        (4, 0, 255),
        (5, 0, 255),
    ],
    followers: &[
        (0, &[1, 2]),
        (1, &[1, 2]),
        (2, &[3]),
        (3, &[4]),
        (4, &[5]),
        (5, &[]),
    ],
    accepting: Some(&[3, 4, 5]),
};

#[test]
fn the_slots_of_an_offset_from_the_end(rt: HostRuntime) {
    assert!(rt; is_made_so(rt.alloc(), FROM_END) == Some(true));
}

// Its rows are `41 42`, `41 43-FF`, `42 00-40`, `42 41`.
const ONE_RANGE: &Made = &Made {
    placed: "BOF,0,,[4142:4241]",
    slots: 9,
    classes: &[
        (1, 0x41, 0x41),
        (2, 0x42, 0x42),
        (3, 0x41, 0x41),
        (4, 0x43, 0xFF),
        (5, 0x42, 0x42),
        (6, 0x00, 0x40),
        (7, 0x42, 0x42),
        (8, 0x41, 0x41),
    ],
    followers: &[
        (0, &[1, 3, 5, 7]),
        (1, &[2]),
        (2, &[9]),
        (3, &[4]),
        (4, &[9]),
        (5, &[6]),
        (6, &[9]),
        (7, &[8]),
        (8, &[9]),
    ],
    accepting: None,
};

// Its rows are `00-40 all`, `41 00-41`, `41 43-FF`, `42-FF all`.
const ALL_BUT_ONE: &Made = &Made {
    placed: "BOF,0,,[!4142]",
    slots: 9,
    classes: &[
        (1, 0x00, 0x40),
        (2, 0x00, 0xFF),
        (3, 0x41, 0x41),
        (4, 0x00, 0x41),
        (5, 0x41, 0x41),
        (6, 0x43, 0xFF),
        (7, 0x42, 0xFF),
        (8, 0x00, 0xFF),
    ],
    followers: &[],
    accepting: None,
};

// Its row is `FF FF`.
const LAST_ALONE: &Made = &Made {
    placed: "BOF,0,,[!0000:FFFE]",
    slots: 3,
    classes: &[(1, 0xFF, 0xFF), (2, 0xFF, 0xFF)],
    followers: &[],
    accepting: None,
};

#[test]
fn the_rows_of_brackets_of_two_bytes(rt: HostRuntime) {
    assert!(rt; is_made_so(rt.alloc(), ONE_RANGE) == Some(true));
    assert!(rt; is_made_so(rt.alloc(), ALL_BUT_ONE) == Some(true));
    assert!(rt; is_made_so(rt.alloc(), LAST_ALONE) == Some(true));
}

// The set that one byte makes of a set of the states of `(41|4142)43`.
fn stepped(auto: &Auto, from: u8, byte: u8) -> Option<u8> {
    if auto.slots() != 5 {
        return None;
    }
    let mut to = [0xFF];
    auto.step_set(&[from], byte, &mut to);
    Some(to[0])
}

// A set of those states, a byte, and the set to which it steps.
const STEPS: &[(u8, u8, u8)] = &[
    (0x01, 0x41, 0x06),
    (0x06, 0x42, 0x08),
    (0x06, 0x43, 0x10),
    (0x08, 0x43, 0x10),
    (0x01, 0x42, 0x00),
    (0x00, 0x41, 0x00),
];

#[test]
fn a_set_of_states_steps_to_all_successors(rt: HostRuntime) {
    let auto = automaton(rt.alloc(), "BOF,0,,(41|4142)43").expect(&rt, "loads");
    for (from, byte, to) in STEPS {
        assert!(rt;
            stepped(&auto, *from, *byte) == Some(*to),
            "{from} on {byte}"
        );
    }
    // The last slot follows the one of 43 and takes every byte.
    for byte in 0..=255 {
        assert!(rt; stepped(&auto, 0x10, byte) == Some(0x20), "on {byte}");
    }
}

// Whether these are the successors, in this order.
fn has_successors(auto: &Auto, p: u32, byte: u8, wanted: &[u32]) -> bool {
    let mut count = 0;
    for q in auto.successors(p, byte) {
        if wanted.get(count) != Some(&q) {
            return false;
        }
        count += 1;
    }
    count == wanted.len()
}

// A sequence, a state, a byte, and the successors.
const SUCCESSORS: &[(&str, u32, u8, &[u32])] = &[
    ("BOF,0,,(41|4142)43", 0, 0x41, &[1, 2]),
    ("BOF,0,,(41|4142)43", 0, 0x42, &[]),
    ("BOF,0,,(41|4142)43", 1, 0x43, &[4]),
    ("BOF,0,,(41|4142)43", 5, 0x00, &[5]),
    ("BOF,0,,41{1-2}42", 2, 0x42, &[3, 4]),
    ("BOF,0,,41{1-2}42", 2, 0x41, &[3]),
];

#[test]
fn successors_rise(rt: HostRuntime) {
    for (placed, p, byte, wanted) in SUCCESSORS {
        let auto = automaton(rt.alloc(), placed).expect(&rt, "loads");
        assert!(rt;
            has_successors(&auto, *p, *byte, wanted),
            "{placed} {p} {byte}"
        );
    }
}

// Whether a set of its states begins with these bytes; none where its sets are longer or shorter.
fn starts_with(auto: &Auto, wanted: &[u8]) -> Option<bool> {
    let mut set = [0xFF; 2];
    if auto.set_len() != wanted.len() || set.len() < wanted.len() {
        return None;
    }
    let set = &mut set[..wanted.len()];
    auto.start_set(set);
    Some(*set == *wanted)
}

#[test]
fn a_set_begins_with_the_start(rt: HostRuntime) {
    let auto = automaton(rt.alloc(), "BOF,0,,(41|4142)43{2}").expect(&rt, "loads");
    assert!(rt; auto.slots() == 7);
    assert!(rt; starts_with(&auto, &[0x01]) == Some(true));
    let auto = automaton(rt.alloc(), "BOF,0,,(41|4142)43{3}").expect(&rt, "loads");
    assert!(rt; starts_with(&auto, &[0x01, 0x00]) == Some(true));
}

// Sets of the states of `(41|4142)43`, and whether they accept.
const ACCEPTING: &[(u8, bool)] = &[
    (0x00, false),
    (0x01, false),
    (0x0E, false),
    (0x10, true),
    (0x20, true),
    (0x3F, true),
];

// Whether the set of one byte accepts; none where sets have more.
fn accepts(auto: &Auto, set: u8) -> Option<bool> {
    if auto.set_len() != 1 {
        return None;
    }
    Some(auto.any_accepting(&[set]))
}

#[test]
fn a_set_accepts_by_one_of_its_states(rt: HostRuntime) {
    let auto = automaton(rt.alloc(), "BOF,0,,(41|4142)43").expect(&rt, "loads");
    for (set, wanted) in ACCEPTING {
        assert!(rt; accepts(&auto, *set) == Some(*wanted), "{set}");
    }
}

#[test]
fn bytes_in_groups(rt: HostRuntime) {
    let auto = automaton(rt.alloc(), "BOF,0,,(41|[42:44])??46").expect(&rt, "loads");
    let mut groups = Groups::one();
    auto.split_groups(&mut groups);
    // 41, 42 to 44, 46, and all others.
    assert!(rt; groups.lowest() == class_of(&[0, 0x41, 0x42, 0x46]));
}

// Two states of `(41|4243|44)(45|46)`, and whether the same ones follow them.
const ALIKE: &[(u32, u32, bool)] = &[
    (1, 3, true),
    (3, 4, true),
    (4, 1, true),
    (5, 6, true),
    (2, 2, true),
    (1, 2, false),
    (2, 3, false),
    (4, 5, false),
    (0, 1, false),
];

// Whether the same states follow them; none where one is no state.
fn leads_like(auto: &Auto, p: u32, q: u32) -> Option<bool> {
    if p > auto.slots() || q > auto.slots() {
        return None;
    }
    Some(auto.behind(p).leads_like(&auto.behind(q)))
}

#[test]
fn states_that_lead_alike(rt: HostRuntime) {
    let auto = automaton(rt.alloc(), "BOF,0,,(41|4243|44)(45|46)").expect(&rt, "loads");
    for (p, q, wanted) in ALIKE {
        assert!(rt; leads_like(&auto, *p, *q) == Some(*wanted), "{p} and {q}");
    }
}

// The class of these bytes.
fn class_of(bytes: &[u8]) -> ByteClass {
    let mut class = ByteClass::none();
    for byte in bytes {
        class.insert(*byte);
    }
    class
}

// Whether it goes on behind the state by these bytes, and has cuts at just those.
fn leads_on(auto: &Auto, p: u32, live: ByteClass, at: &[u8]) -> bool {
    if p > auto.slots() {
        return false;
    }
    let mut cuts = ByteClass::none();
    auto.live_bytes(auto.behind(p), &mut cuts) == live && cuts == class_of(at)
}

// Whether any byte leads on behind the states 1 and 4 of `(41|[42:44])??46`, and 46 alone behind 3:
// there are cuts at it and behind it, and none at 41.
fn leads_on_by_46(auto: &Auto) -> bool {
    if auto.slots() < 4 {
        return false;
    }
    let mut cuts = ByteClass::none();
    auto.live_bytes(auto.behind(1), &mut cuts) == ByteClass::all()
        && auto.live_bytes(auto.behind(3), &mut cuts) == ByteClass::of_byte(0x46)
        && cuts.contains(0x46)
        && cuts.contains(0x47)
        && !cuts.contains(0x41)
        && auto.live_bytes(auto.behind(4), &mut cuts) == ByteClass::all()
}

// Whether its slots are cut at these bytes, and perhaps at 0.
fn has_cuts(auto: &Auto, at: &[u8]) -> bool {
    let mut cuts = ByteClass::none();
    auto.add_cuts(&mut cuts);
    cuts.insert(0);
    cuts == class_of(at)
}

#[test]
fn bytes_that_lead_on(rt: HostRuntime) {
    let auto = automaton(rt.alloc(), "BOF,0,,(41|[42:44])??46").expect(&rt, "loads");
    let first = ByteClass::range(0x41, 0x44);
    assert!(rt; leads_on(&auto, 0, first, &[0x41, 0x42, 0x45]));
    assert!(rt; leads_on_by_46(&auto));
    assert!(rt; has_cuts(&auto, &[0, 0x41, 0x42, 0x45, 0x46, 0x47]));
}

// Puts so many of the same parts behind the text.
fn push_repeated(text: &mut String, part: &str, times: u32) -> Option<()> {
    for _ in 0..times {
        text.push_str(part).ok()?;
    }
    Some(())
}

// The automaton of a sequence with so many of the same parts.
fn repeated(alloc: Global, head: &str, part: &str, times: u32) -> Option<Auto> {
    let mut text = String::new(alloc);
    text.push_str(head).ok()?;
    push_repeated(&mut text, part, times)?;
    automaton(alloc, &text)
}

// Whether its slots follow each other, and its last one but one accepts, as it should be.
fn goes_to_its_end(auto: &Auto) -> bool {
    auto.slots() == 5402
        && auto.follows(5400, 5401)
        && !auto.follows(5399, 5402)
        && auto.accepting(5401)
        && !auto.accepting(5399)
}

#[test]
fn a_long_expression(rt: HostRuntime) {
    let auto = repeated(rt.alloc(), "BOF,0,,41", "*42", 2700).expect(&rt, "loads");
    assert!(rt; goes_to_its_end(&auto));
    assert!(rt; has_successors(&auto, 1, 0x42, &[2, 3]));
    assert!(rt; has_successors(&auto, 5399, 0x41, &[5400]));
    assert!(rt; has_successors(&auto, 5402, 0x41, &[5402]));
}

// Whether the successors of the state are all states from the first to 102.
fn rise_from(auto: &Auto, p: u32, first: u32) -> bool {
    let mut wanted = first;
    for q in auto.successors(p, 0x41) {
        if q != wanted {
            return false;
        }
        wanted = wanted.wrapping_add(1);
    }
    wanted == 103
}

#[test]
fn the_successors_before_a_row_of_gaps_are_all_of_them(rt: HostRuntime) {
    let auto = repeated(rt.alloc(), "BOF,0,,41", "*", 100).expect(&rt, "loads");
    assert!(rt; auto.slots() == 102);
    assert!(rt; rise_from(&auto, 1, 2));
    assert!(rt; rise_from(&auto, 2, 2));
    assert!(rt; rise_from(&auto, 50, 50));
    assert!(rt; rise_from(&auto, 102, 102));
}

// A sequence, its slots, and the bytes of a set of its states.
const SLOTS: &[(&str, u32, usize)] = &[
    ("BOF,0,,{11}", 12, 2),
    ("BOF,0,,41{65530}42", 65_533, 8_192),
    ("Variable,,,{65533}", 65_535, 8_192),
];

#[test]
fn slots_and_the_bytes_of_a_set_are_counted(rt: HostRuntime) {
    for (placed, slots, len) in SLOTS {
        let auto = automaton(rt.alloc(), placed).expect(&rt, "loads");
        assert!(rt;
            auto.slots() == *slots && auto.set_len() == *len,
            "{placed}"
        );
    }
}

// Whether the slots of the gap are followed as they should be.
fn goes_through_gap(auto: &Auto) -> bool {
    auto.follows(1, 2)
        && auto.follows(1, 60002)
        && auto.follows(60000, 60001)
        && !auto.follows(1, 3)
        && !auto.follows(60001, 60001)
}

#[test]
fn a_gap_of_many_slots_steps_as_one(rt: HostRuntime) {
    let auto = automaton(rt.alloc(), "BOF,0,,41{0-60000}42").expect(&rt, "loads");
    assert!(rt; auto.slots() == 60003);
    assert!(rt; goes_through_gap(&auto));
    assert!(rt; has_successors(&auto, 60000, 0x42, &[60001, 60002]));
    assert!(rt; has_successors(&auto, 60001, 0x42, &[60002]));
    assert!(rt; has_successors(&auto, 60001, 0x41, &[]));
}

// The bytes with which the one sequence with this position and this expression begins, and whether
// it stands in the empty file.
fn begin_of(alloc: Global, placed: &str) -> Option<(ByteClass, bool)> {
    let table = table_of(alloc, placed)?;
    match first_of(&table) {
        Some(sequence) => Some((first_bytes(sequence), accepts_empty(sequence))),
        None => None,
    }
}

// A sequence, the first and the last byte with which it begins, and whether it stands in the empty
// file.
const BEGINS: &[(&str, u8, u8, bool)] = &[
    ("BOF,0,,4142", 0x41, 0x41, false),
    ("BOF,0,1,4142", 0, 255, false),
    ("BOF,0,,{0-3}41", 0, 255, false),
    ("BOF,0,,(41|4243|42)", 0x41, 0x42, false),
    ("BOF,0,,[4142:4300]", 0x41, 0x43, false),
    ("EOF,0,,41", 0, 255, false),
    ("Variable,,,41", 0, 255, false),
    ("Variable,,,*", 0, 255, true),
    ("BOF,1,2,*", 0, 255, false),
];

// Whether the sequence begins with these bytes.
fn begins_with(alloc: Global, placed: &str, bytes: ByteClass) -> bool {
    match begin_of(alloc, placed) {
        Some((first, _)) => first == bytes,
        None => false,
    }
}

#[test]
fn the_first_bytes_of_sequences(rt: HostRuntime) {
    for (placed, first, last, is_empty) in BEGINS {
        let wanted = Some((ByteClass::range(*first, *last), *is_empty));
        assert!(rt; begin_of(rt.alloc(), placed) == wanted, "{placed}");
    }
    let others = ByteClass::range(0x41, 0x42).without();
    assert!(rt; begins_with(rt.alloc(), "BOF,0,,[!4100:42FF]", others));
    assert!(rt; begins_with(rt.alloc(), "BOF,0,,[!4101:42FE]", ByteClass::all()));
}
