//! Signatures as words.
use jn_base::SlotNo;
use jn_quals::Qual;
use jn_sigs::Sig;
use std::process::Abort;

/// The slots have these bits.
fn expect_slots(rt: &impl Abort, sig: &Sig, slots: &[(u32, u8)]) {
    for (slot, bits) in slots {
        assert_eq!(rt; sig.get(SlotNo(*slot)).bits(), *bits, "slot {slot}");
    }
}

#[test]
fn raises_over_a_border(rt: HostRuntime) {
    let Ok(mut sig) = Sig::empty(rt.alloc(), 43) else {
        panic!(rt; "no memory")
    };
    for (slot, qual) in [
        (20, Qual::free_only()),
        (21, Qual::null_only()),
        (42, Qual::all()),
        (20, Qual::committed_only()),
    ] {
        assert!(rt; slot < sig.slots());
        sig.raise(SlotNo(slot), qual);
    }
    assert_eq!(rt; sig.words(), [6 << 60, 1u64, 7].as_slice());
    let slots = [
        (19, 0),
        (20, 6),
        (21, 1),
        (22, 0),
        (41, 0),
        (42, 7),
        (43, 0),
    ];
    expect_slots(&rt, &sig, &slots);
}

#[test]
fn words_and_back(rt: HostRuntime) {
    let alloc = rt.alloc();
    let Ok(mut sig) = Sig::empty(alloc, 2) else {
        panic!(rt; "no memory")
    };
    assert!(rt; sig.slots() == 2);
    sig.raise(SlotNo(1), Qual::committed_only());
    let Ok(words) = Vec::from_slice(alloc, sig.words()) else {
        panic!(rt; "no memory")
    };
    let again = Sig::of_words(words, sig.slots());
    assert_eq!(rt; again.slots(), 2);
    assert_eq!(rt; again.get(SlotNo(0)).bits(), 0);
    assert_eq!(rt; again.get(SlotNo(1)).bits(), 2);
    assert_eq!(rt; again.words(), [0o20u64].as_slice());
}
