//! Laws over the definitions.
ghost use Rattle.std.specs.Prelude.{ℕ, ◌≡◌, ◌⊎◌, length, true, false, Some};
ghost use Rattle.jn_points.specs.declared.program.Field.{Field as FieldOf};
ghost use Rattle.jn_points.specs.declared.program.Method.{Method as MethodOf};
ghost use Rattle.jn_points.specs.declared.program.Program.{Program as ProgramOf};
ghost use Rattle.jn_points.specs.Lookup.{method_at};
ghost use Rattle.jn_points.specs.Members.{method_of, field_of, dispatch, is_pair, sub};
ghost use Rattle.jn_points.specs.Regular.{RegularClasses, Implements, IsConcrete};
ghost use Rattle.jn_points.specs.Shaped.{IsVirtual};
ghost use Rattle.jn_members_law.specs.Inherited.{IsInterface, IsMember, KeepsAccess, AbstractInterfaces, RegularMethods};
ghost use Rattle.jn_members_law.specs.InheritedFields.{IsFieldMember, RegularFields};
ghost use Rattle.jn_members_law.specs.Overrides.{OverridesFrom, OverridesThere};
ghost use Rattle.jn_members_law.specs.Invoked.{IsInvoked};
ghost use Rattle.jn_members_law.specs.Example.{example, x_of_a, f_of_i, f_of_j, f_of_a, f_of_c};

/// The method that a class has is one of its members (JLS 8, 8.2 and 8.4.8), it has one for each
/// member, and where a class declares a member, this is the one.
///
/// Of several members that interfaces declare, it is the first along the walk.
pub fn methods_are_members()
    ensures member { (P : ProgramOf) → RegularClasses P → KeepsAccess P → (c name arity m : ℕ)
        → method_of P c name arity ≡ Some m
        → (x : MethodOf) × IsMember P c m x × (x.name.0 ≡ name) × (length x.params ≡ arity) }
    ensures found { (P : ProgramOf) → RegularClasses P → (c m : ℕ) (x : MethodOf) → IsMember P c m x
        → (j : ℕ) × (method_of P c x.name.0 (length x.params) ≡ Some j) }
    ensures unique { (P : ProgramOf) → RegularClasses P → RegularMethods P
        → (c m : ℕ) (x : MethodOf) → IsMember P c m x → IsInterface P x.owner.0 false
        → method_of P c x.name.0 (length x.params) ≡ Some m }
{}

/// The field that a class has for a name is its member of the name (JLS 8, 8.2 and 8.3): what it has
/// is a member, it has each member, and of one name there is one.
pub fn fields_are_members()
    ensures member { (P : ProgramOf) → RegularClasses P → RegularFields P → (c name f : ℕ)
        → field_of P c name ≡ Some f → (x : FieldOf) × IsFieldMember P c f x × (x.name.0 ≡ name) }
    ensures found { (P : ProgramOf) → RegularClasses P → RegularFields P → (c f : ℕ) (x : FieldOf)
        → IsFieldMember P c f x → field_of P c x.name.0 ≡ Some f }
    ensures one { (P : ProgramOf) → RegularClasses P → RegularFields P → (c f g : ℕ) (x y : FieldOf)
        → IsFieldMember P c f x → IsFieldMember P c g y → x.name.0 ≡ y.name.0 → f ≡ g }
{}

/// An instance method that is in an overriding pair overrides the other one (JLS 8, 8.4.8.1 and
/// 9.4.1.1), and what a method of a class overrides is its pair.
///
/// A method of an interface that a class inherits is in a pair where the class has it, and not
/// another one of its interfaces' (`found`).
pub fn pairs_override()
    ensures overrides { (P : ProgramOf) → RegularClasses P → RegularMethods P → KeepsAccess P
        → (m k : ℕ) (x y : MethodOf) → method_at P m ≡ Some x → method_at P k ≡ Some y
        → x.is_static ≡ false → is_pair P m k ≡ true
        → ((c : ℕ) × OverridesFrom P c m k x y) ⊎ OverridesThere P m k x y }
    ensures from_class { (P : ProgramOf) → RegularClasses P → RegularMethods P
        → (c m k : ℕ) (x y : MethodOf) → OverridesFrom P c m k x y → IsInterface P x.owner.0 false
        → is_pair P m k ≡ true }
    ensures found { (P : ProgramOf) → RegularClasses P → (c m k : ℕ) (x y : MethodOf)
        → OverridesFrom P c m k x y → method_of P c x.name.0 (length x.params) ≡ Some m
        → is_pair P m k ≡ true }
    ensures there { (P : ProgramOf) → RegularClasses P → (m k : ℕ) (x y : MethodOf)
        → OverridesThere P m k x y → is_pair P m k ≡ true }
{}

/// Dispatch selects the method that is invoked (JLS 8, 15.12.4.4): what it selects is invoked, at
/// most one is, and for an object of a class that implements its methods, what is invoked is
/// selected.
pub fn dispatch_invokes()
    ensures invoked { (P : ProgramOf) → RegularClasses P → RegularMethods P → AbstractInterfaces P
        → (s m k : ℕ) (named : MethodOf) → method_at P m ≡ Some named → dispatch P s m ≡ Some k
        → (x : MethodOf) × IsInvoked P s named k x }
    ensures one { (P : ProgramOf) → RegularClasses P → RegularMethods P
        → (s k j : ℕ) (named x y : MethodOf) → IsInvoked P s named k x → IsInvoked P s named j y
        → k ≡ j }
    ensures selected { (P : ProgramOf) → RegularClasses P → RegularMethods P → AbstractInterfaces P
        → Implements P → (s m k : ℕ) (named x : MethodOf) → method_at P m ≡ Some named
        → IsConcrete P s → IsVirtual P m → sub P s named.owner.0 ≡ true → IsInvoked P s named k x
        → dispatch P s m ≡ Some k }
{}

/// A program meets all premises of these laws at once, and in it a class inherits a method and a
/// field, methods override from a class and from an interface, and a method is dispatched to.
pub fn example_meets_premises()
    ensures classes { RegularClasses example }
    ensures methods { RegularMethods example }
    ensures fields { RegularFields example }
    ensures access { KeepsAccess example }
    ensures abstract_interfaces { AbstractInterfaces example }
    ensures implements { Implements example }
    ensures inherits { IsMember example 5 2 f_of_a × IsInterface example 4 false
        × (method_of example 5 10 0 ≡ Some 2) }
    ensures inherits_field { IsFieldMember example 5 0 x_of_a × (field_of example 5 12 ≡ Some 0) }
    ensures overrides { OverridesFrom example 6 4 2 f_of_c f_of_a × IsInterface example 6 false
        × (is_pair example 4 2 ≡ true) }
    ensures overrides_there { OverridesThere example 1 0 f_of_j f_of_i
        × (is_pair example 1 0 ≡ true) }
    ensures invokes { IsInvoked example 5 f_of_i 2 f_of_a × (method_at example 0 ≡ Some f_of_i)
        × IsConcrete example 5 × IsVirtual example 0 × (sub example 5 2 ≡ true)
        × (dispatch example 5 0 ≡ Some 2) }
{}
