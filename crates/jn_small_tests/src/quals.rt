//! All pairs of sets, and words.
use jn_quals::{Qual, pack, unpack};

/// The union of two sets, by their bits.
const UNIONS: [[u8; 8]; 8] = [
    [0, 1, 2, 3, 4, 5, 6, 7],
    [1, 1, 3, 3, 5, 5, 7, 7],
    [2, 3, 2, 3, 6, 7, 6, 7],
    [3, 3, 3, 3, 7, 7, 7, 7],
    [4, 5, 6, 7, 4, 5, 6, 7],
    [5, 5, 7, 7, 5, 5, 7, 7],
    [6, 7, 6, 7, 6, 7, 6, 7],
    [7, 7, 7, 7, 7, 7, 7, 7],
];

/// The sets within which the set with the row's bits is.
const ABOVE: [[bool; 8]; 8] = [
    [true, true, true, true, true, true, true, true],
    [false, true, false, true, false, true, false, true],
    [false, false, true, true, false, false, true, true],
    [false, false, false, true, false, false, false, true],
    [false, false, false, false, true, true, true, true],
    [false, false, false, false, false, true, false, true],
    [false, false, false, false, false, false, true, true],
    [false, false, false, false, false, false, false, true],
];

/// Without null, without free, the null part, and with free settled.
const PARTS: [[u8; 4]; 8] = [
    [0, 0, 0, 0],
    [0, 1, 1, 1],
    [2, 2, 0, 2],
    [2, 3, 1, 3],
    [4, 0, 0, 2],
    [4, 1, 1, 3],
    [6, 2, 0, 2],
    [6, 3, 1, 3],
];

#[test]
fn all_pairs(rt: HostRuntime) {
    for a in 0..8u8 {
        for b in 0..8u8 {
            let (left, right) = (Qual::of_bits(a), Qual::of_bits(b));
            let (row, column) = (a as usize, b as usize);
            assert_eq!(rt;
                left.join(right).bits(),
                UNIONS[row][column],
                "{a} with {b}"
            );
            assert_eq!(rt; left.within(right), ABOVE[row][column], "{a} in {b}");
            assert_eq!(rt; left == right, a == b);
        }
    }
}

#[test]
fn parts(rt: HostRuntime) {
    for a in 0..8u8 {
        let qual = Qual::of_bits(a);
        let [non_null, non_free, null, settled] = PARTS[a as usize];
        assert_eq!(rt; qual.without_null().bits(), non_null, "{a}");
        assert_eq!(rt; qual.without_free().bits(), non_free, "{a}");
        assert_eq!(rt; qual.null_part().bits(), null, "{a}");
        assert_eq!(rt; qual.settle().bits(), settled, "{a}");
        assert_eq!(rt; qual.is_none(), a == 0, "{a}");
        let kinds = (qual.has_null(), qual.has_committed(), qual.has_free());
        assert_eq!(rt; kinds, (null == 1, non_free >= 2, a >= 4), "{a}");
    }
}

#[test]
fn constants(rt: HostRuntime) {
    let sets = [
        Qual::none(),
        Qual::null_only(),
        Qual::committed_only(),
        Qual::null_or_committed(),
        Qual::free_only(),
        Qual::all(),
    ];
    for (set, bits) in sets.into_iter().zip([0, 1, 2, 3, 4, 7]) {
        assert_eq!(rt; set.bits(), bits);
    }
}

#[test]
fn words(rt: HostRuntime) {
    let word = pack(
        pack(pack(0, 0, Qual::free_only()), 1, Qual::all()),
        20,
        Qual::null_only(),
    );
    assert_eq!(rt; word, 0x1000_0000_0000_003c);
    let joined = pack(word, 20, Qual::committed_only());
    for (index, bits) in [(0, 4), (1, 7), (2, 0), (19, 0), (20, 3)] {
        assert_eq!(rt; unpack(joined, index).bits(), bits, "{index}");
    }
}
