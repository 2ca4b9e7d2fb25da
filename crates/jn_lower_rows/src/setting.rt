//! Where an expression stands.

/// Whether `this` may stand there (JLS 8.4.3.2 and 8.8.7.1), and whether final fields of the class may be assigned through it (4.12.4, 8.3.1.2).
#[derive(Clone, Copy)]
pub struct Setting {
    pub this_stands: bool,
    pub own_fields: bool,
}

/// In the arguments of `this(..)` and `super(..)`.
pub const NO_THIS: Setting = Setting {
    this_stands: false,
    own_fields: false,
};

/// In a field's initializer.
pub const INITIALIZER: Setting = Setting {
    this_stands: true,
    own_fields: false,
};
