//! What codes say to a person.
ghost use Rattle.std.specs.Prelude.{◌≡◌};
ghost use Rattle.jn_base.specs.Messages.{code_cure, code_message};

use crate::code::Code;

impl Code {
    /// What is wrong at the row's place, in a sentence without a full stop.
    pub fn message(self) -> &'static str
        ensures { result.now ≡ code_message self }
    {
        match self {
            Code::B1 => "more than 64 files are named",
            Code::B2 => "this file has more than 1,048,576 bytes",
            Code::B3 => "with this file all files have more than 4,194,304 bytes together",
            Code::L1 => "this byte begins no character in UTF-8",
            Code::L2 => "a Unicode escape is not taken",
            Code::L3 => "this character is not of the subset",
            Code::L4 => "this comment is not closed",
            Code::L5 => "this string is not closed on its line",
            Code::L6 => "this is no escape of a string",
            Code::L7 => "this is no number of the subset",
            Code::S1 => "the statement, member or head that begins here is not well formed",
            Code::S2 => "more than 200 brackets are open here",
            Code::T1 => "this name is declared twice, or is one of the language's own",
            Code::T2 =>
                "no file declares this type, or it is a class where an interface is wanted or the other way round",
            Code::T3 => "this type is its own supertype",
            Code::T4 => "a member of this name with as many parameters stands before",
            Code::T5 =>
                "this method does not fit one of the same name and number of parameters in a supertype",
            Code::T6 => "a method without body does not fit here",
            Code::T7 => "a supertype has a field of this name",
            Code::T8 => "this constructor comes back to itself by this(..)",
            Code::T9 => "this class extends a final class",
            Code::T10 => "with this class the program has too many members",
            Code::J1 => "this name means nothing here",
            Code::J2 => "there is no such member, or it cannot be named like this",
            Code::J3 => "this member is private to another class",
            Code::J4 => "this cannot be assigned here",
            Code::J5 => "this form is not of the subset",
            Code::J6 => "this body is too large",
            Code::J7 => "the type of this value does not fit",
            Code::J8 => "this local is not assigned on every way that comes here",
            Code::J9 => "a result is missing, or is not wanted",
            Code::J10 => "the elements may be null on one side alone",
            Code::Deref => "this may be null when it is dereferenced",
            Code::Field => "this may be null, and the field takes no null",
            Code::FieldInit =>
                "this may be under construction, and goes into a field of a whole object",
            Code::Arg => "this may be null, and the parameter takes no null",
            Code::ArgInit =>
                "this argument is under construction or whole where the parameter takes the other",
            Code::RecvInit =>
                "the receiver is under construction or whole where the method takes the other",
            Code::Return => "this may be null, and the result is not @Nullable",
            Code::ReturnInit => "this is under construction or whole where the result is the other",
            Code::Local => "this may be null, and the local is marked @NonNull",
            Code::LocalInit =>
                "this is under construction or whole where the local is marked as the other",
            Code::Elem => "this may be null, and the elements of the array are not @Nullable",
            Code::ElemInit => "this may be under construction, and elements are whole objects",
            Code::NewArray => "a new array holds nulls, and its elements are not @Nullable",
            Code::CtorFields =>
                "this constructor can end with a field unassigned that takes no null",
            Code::OvrParam => "a parameter takes less than that of the method that is overridden",
            Code::OvrReceiver =>
                "the receiver takes less than that of the method that is overridden",
            Code::OvrResult => "the result may be more than that of the method that is overridden",
        }
    }

    /// What to do about it, in a sentence without a full stop.
    pub fn cure(self) -> &'static str
        ensures { result.now ≡ code_cure self }
    {
        match self {
            Code::B1 =>
                "check fewer files at once, or join those that need each other into fewer files",
            Code::B2 => "split the file",
            Code::B3 => "check fewer files at once",
            Code::L1 => "save the file as UTF-8",
            Code::L2 => "write the character itself",
            Code::L3 =>
                "write a string in place of a character in quotes, leave a byte order mark out, and take the operators of conditions and arithmetic alone",
            Code::L4 => "close it by */",
            Code::L5 => "close it by a double quote on its line",
            Code::L6 => "write one of \\b \\t \\n \\f \\r \\\" \\' \\\\",
            Code::L7 => "write a decimal number up to 2147483648 without a leading zero",
            Code::S1 => "mend it, or write it in a form of the subset",
            Code::S2 => "split the expression or the block",
            Code::T1 => "take another name",
            Code::T2 => "name the file that declares it, too, or mend extends and implements",
            Code::T3 => "leave one extends or implements of the circle out",
            Code::T4 => "take another name, or another number of parameters",
            Code::T5 => "give it the same parameters and a result that fits, or another name",
            Code::T6 => "write the body, or declare the class or the method abstract",
            Code::T7 => "take another name",
            Code::T8 => "let one constructor of the circle begin with super(..)",
            Code::T9 => "hold one in a field in place of being one",
            Code::T10 => "check fewer files at once, or split the program",
            Code::J1 => "declare it, pass the object as a parameter, or take another name",
            Code::J2 =>
                "take the right name and number of arguments, and name statics through their class",
            Code::J3 => "add a method to its class that gives it, or make it less private",
            Code::J4 => "leave final out, or assign it in a constructor of its class",
            Code::J5 => "write it in a form that is taken",
            Code::J6 => "split the body",
            Code::J7 => "use another value, or another type",
            Code::J8 => "assign it on every way",
            Code::J9 => "return a value on every way, or none from a void method",
            Code::J10 => "make the array with the element nullity that is wanted",
            Code::Deref => "copy it to a local and test that, or mark what it comes from",
            Code::Field => "write another value, or mark the field @Nullable",
            Code::FieldInit =>
                "build it in a local and assign the field last, once its constructor has ended, or let the owner be @UnderInitialization",
            Code::Arg => "test it before the call, or mark the parameter @Nullable",
            Code::ArgInit =>
                "build it in a local and call once its constructor has ended, or mark the parameter @UnderInitialization or @UnknownInitialization",
            Code::RecvInit =>
                "build it in a local and call once its constructor has ended, or write a receiver parameter with @UnderInitialization or @UnknownInitialization",
            Code::Return => "return another value, or mark the result @Nullable",
            Code::ReturnInit =>
                "return another value, or mark the result @UnderInitialization or @UnknownInitialization",
            Code::Local => "leave the annotation out, or assign another value",
            Code::LocalInit => "leave the annotation out, or assign another value",
            Code::Elem => "put another value in, or make an array of @Nullable elements",
            Code::ElemInit => "build it in a local and put it in once its constructor has ended",
            Code::NewArray => "list the elements in braces, or make an array of @Nullable elements",
            Code::CtorFields =>
                "give the field an initializer, assign it on every way, or mark it @Nullable",
            Code::OvrParam => "let the parameter take as much, or more",
            Code::OvrReceiver => "let the receiver take as much, or more",
            Code::OvrResult => "let the result give as much, or less",
        }
    }
}
