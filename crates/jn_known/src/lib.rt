//! Names that have a number before any file is read, so that a number says which name it is.
//!
//! `KNOWN_NAMES` is numbered first, in its order; a constant of this crate is the number of its text (`law::numbers_tell_names`).
#![tactic(auto)]

pub mod law;

use jn_base::NameNo;

/// The texts that are numbered first, in the order of their numbers: words of the library, the members of Object, the
/// annotations of the Checker Framework that are known, and the parts of its package's name.
pub const KNOWN_NAMES: [&str; 30] = [
    "String",
    "System",
    "out",
    "println",
    "length",
    "main",
    "Object",
    "clone",
    "equals",
    "finalize",
    "getClass",
    "hashCode",
    "notify",
    "notifyAll",
    "toString",
    "wait",
    "isEmpty",
    "NonNull",
    "Nullable",
    "Initialized",
    "UnderInitialization",
    "UnknownInitialization",
    "Override",
    "org",
    "checkerframework",
    "MonotonicNonNull",
    "checker",
    "nullness",
    "qual",
    "initialization",
];

pub const STRING: NameNo = NameNo(0);

pub const SYSTEM: NameNo = NameNo(1);

pub const OUT: NameNo = NameNo(2);

pub const PRINTLN: NameNo = NameNo(3);

pub const LENGTH: NameNo = NameNo(4);

pub const MAIN: NameNo = NameNo(5);

pub const OBJECT: NameNo = NameNo(6);

/// The first of the members of Object.
pub const FIRST_MEMBER: NameNo = NameNo(7);

pub const EQUALS: NameNo = NameNo(8);

/// The first name after the members of Object.
pub const IS_EMPTY: NameNo = NameNo(16);

pub const NON_NULL: NameNo = NameNo(17);

pub const NULLABLE: NameNo = NameNo(18);

pub const INITIALIZED: NameNo = NameNo(19);

pub const UNDER_INITIALIZATION: NameNo = NameNo(20);

pub const UNKNOWN_INITIALIZATION: NameNo = NameNo(21);

pub const OVERRIDE: NameNo = NameNo(22);

pub const ORG: NameNo = NameNo(23);

pub const CHECKERFRAMEWORK: NameNo = NameNo(24);

pub const MONOTONIC_NON_NULL: NameNo = NameNo(25);

/// `checker`, `nullness`, `qual` and `initialization`: the parts of the names of the packages of annotations, so that
/// an import of them gives no other name a new number.
pub const CHECKER: NameNo = NameNo(26);

pub const NULLNESS: NameNo = NameNo(27);

pub const QUAL: NameNo = NameNo(28);

pub const INITIALIZATION: NameNo = NameNo(29);
