//! Tokens.
use jn_base::{NameNo, Span};

/// What a token is (JLS 3.5 to 3.12): an identifier or a string by the number of its text, a number by its value, a keyword, a literal word, a separator or an operator.
#[derive(Clone, Copy, Debug, PartialEq, Eq)]
pub enum TokenKind {
    Id(NameNo),
    Str(NameNo),
    Number(u32),
    /// `abstract`
    Abstract,
    /// `assert`
    Assert,
    /// `boolean`
    Boolean,
    /// `break`
    Break,
    /// `byte`
    Byte,
    /// `case`
    Case,
    /// `catch`
    Catch,
    /// `char`
    Char,
    /// `class`
    Class,
    /// `const`
    Const,
    /// `continue`
    Continue,
    /// `default`
    Default,
    /// `do`
    Do,
    /// `double`
    Double,
    /// `else`
    Else,
    /// `enum`
    Enum,
    /// `extends`
    Extends,
    /// `final`
    Final,
    /// `finally`
    Finally,
    /// `float`
    Float,
    /// `for`
    For,
    /// `goto`
    Goto,
    /// `if`
    If,
    /// `implements`
    Implements,
    /// `import`
    Import,
    /// `instanceof`
    Instanceof,
    /// `int`
    Int,
    /// `interface`
    Interface,
    /// `long`
    Long,
    /// `native`
    Native,
    /// `new`
    New,
    /// `package`
    Package,
    /// `private`
    Private,
    /// `protected`
    Protected,
    /// `public`
    Public,
    /// `return`
    Return,
    /// `short`
    Short,
    /// `static`
    Static,
    /// `strictfp`
    Strictfp,
    /// `super`
    Super,
    /// `switch`
    Switch,
    /// `synchronized`
    Synchronized,
    /// `this`
    This,
    /// `throw`
    Throw,
    /// `throws`
    Throws,
    /// `transient`
    Transient,
    /// `try`
    Try,
    /// `void`
    Void,
    /// `volatile`
    Volatile,
    /// `while`
    While,
    /// `true`
    True,
    /// `false`
    False,
    /// `null`
    Null,
    /// `(`
    LeftParen,
    /// `)`
    RightParen,
    /// `{`
    LeftBrace,
    /// `}`
    RightBrace,
    /// `[`
    LeftBracket,
    /// `]`
    RightBracket,
    /// `;`
    Semicolon,
    /// `,`
    Comma,
    /// `.`
    Dot,
    /// `@`
    At,
    /// `=`
    Assign,
    /// `>`
    Greater,
    /// `<`
    Less,
    /// `!`
    Not,
    /// `?`
    Question,
    /// `:`
    Colon,
    /// `==`
    EqualEqual,
    /// `<=`
    LessEqual,
    /// `>=`
    GreaterEqual,
    /// `!=`
    NotEqual,
    /// `&&`
    AndAnd,
    /// `||`
    OrOr,
    /// `++`
    PlusPlus,
    /// `--`
    MinusMinus,
    /// `+`
    Plus,
    /// `-`
    Minus,
    /// `*`
    Star,
    /// `/`
    Slash,
    /// `%`
    Percent,
    /// `+=`
    PlusAssign,
    /// `-=`
    MinusAssign,
    /// `*=`
    StarAssign,
    /// `/=`
    SlashAssign,
    /// `%=`
    PercentAssign,
}

/// A token, and where it stands.
#[derive(Clone, Copy, Debug, PartialEq, Eq)]
pub struct Token {
    pub kind: TokenKind,
    pub span: Span,
}
