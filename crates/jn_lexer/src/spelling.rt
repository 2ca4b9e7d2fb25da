//! The tokens that have one spelling.
ghost use Rattle.std.specs.Prelude.{◌≡◌, ◌&&◌, [], ◌∷◌, nat_eq, length, find, filter};
ghost use Rattle.jn_lexer.specs.Spelling.{spelling};
ghost use Rattle.jn_lexer.specs.Scan.{begins, is_spelled};

use jn_trees::TokenKind;

/// The keywords, and the words of literals.
const WORDS: [TokenKind; 53] = [
    TokenKind::Abstract,
    TokenKind::Assert,
    TokenKind::Boolean,
    TokenKind::Break,
    TokenKind::Byte,
    TokenKind::Case,
    TokenKind::Catch,
    TokenKind::Char,
    TokenKind::Class,
    TokenKind::Const,
    TokenKind::Continue,
    TokenKind::Default,
    TokenKind::Do,
    TokenKind::Double,
    TokenKind::Else,
    TokenKind::Enum,
    TokenKind::Extends,
    TokenKind::Final,
    TokenKind::Finally,
    TokenKind::Float,
    TokenKind::For,
    TokenKind::Goto,
    TokenKind::If,
    TokenKind::Implements,
    TokenKind::Import,
    TokenKind::Instanceof,
    TokenKind::Int,
    TokenKind::Interface,
    TokenKind::Long,
    TokenKind::Native,
    TokenKind::New,
    TokenKind::Package,
    TokenKind::Private,
    TokenKind::Protected,
    TokenKind::Public,
    TokenKind::Return,
    TokenKind::Short,
    TokenKind::Static,
    TokenKind::Strictfp,
    TokenKind::Super,
    TokenKind::Switch,
    TokenKind::Synchronized,
    TokenKind::This,
    TokenKind::Throw,
    TokenKind::Throws,
    TokenKind::Transient,
    TokenKind::Try,
    TokenKind::Void,
    TokenKind::Volatile,
    TokenKind::While,
    TokenKind::True,
    TokenKind::False,
    TokenKind::Null,
];

/// The operators of two characters.
const PAIRS: [TokenKind; 13] = [
    TokenKind::EqualEqual,
    TokenKind::LessEqual,
    TokenKind::GreaterEqual,
    TokenKind::NotEqual,
    TokenKind::AndAnd,
    TokenKind::OrOr,
    TokenKind::PlusPlus,
    TokenKind::MinusMinus,
    TokenKind::PlusAssign,
    TokenKind::MinusAssign,
    TokenKind::StarAssign,
    TokenKind::SlashAssign,
    TokenKind::PercentAssign,
];

/// The separators and operators of one character.
const SINGLES: [TokenKind; 21] = [
    TokenKind::LeftParen,
    TokenKind::RightParen,
    TokenKind::LeftBrace,
    TokenKind::RightBrace,
    TokenKind::LeftBracket,
    TokenKind::RightBracket,
    TokenKind::Semicolon,
    TokenKind::Comma,
    TokenKind::Dot,
    TokenKind::At,
    TokenKind::Assign,
    TokenKind::Greater,
    TokenKind::Less,
    TokenKind::Not,
    TokenKind::Question,
    TokenKind::Colon,
    TokenKind::Plus,
    TokenKind::Minus,
    TokenKind::Star,
    TokenKind::Slash,
    TokenKind::Percent,
];

/// The one spelling of a kind of token; empty for identifiers, strings and numbers.
fn spelling(kind: TokenKind) -> &'static str
    ensures { result.now ≡ spelling kind }
{
    match kind {
        TokenKind::Id(_) | TokenKind::Str(_) | TokenKind::Number(_) => "",
        TokenKind::Abstract => "abstract",
        TokenKind::Assert => "assert",
        TokenKind::Boolean => "boolean",
        TokenKind::Break => "break",
        TokenKind::Byte => "byte",
        TokenKind::Case => "case",
        TokenKind::Catch => "catch",
        TokenKind::Char => "char",
        TokenKind::Class => "class",
        TokenKind::Const => "const",
        TokenKind::Continue => "continue",
        TokenKind::Default => "default",
        TokenKind::Do => "do",
        TokenKind::Double => "double",
        TokenKind::Else => "else",
        TokenKind::Enum => "enum",
        TokenKind::Extends => "extends",
        TokenKind::Final => "final",
        TokenKind::Finally => "finally",
        TokenKind::Float => "float",
        TokenKind::For => "for",
        TokenKind::Goto => "goto",
        TokenKind::If => "if",
        TokenKind::Implements => "implements",
        TokenKind::Import => "import",
        TokenKind::Instanceof => "instanceof",
        TokenKind::Int => "int",
        TokenKind::Interface => "interface",
        TokenKind::Long => "long",
        TokenKind::Native => "native",
        TokenKind::New => "new",
        TokenKind::Package => "package",
        TokenKind::Private => "private",
        TokenKind::Protected => "protected",
        TokenKind::Public => "public",
        TokenKind::Return => "return",
        TokenKind::Short => "short",
        TokenKind::Static => "static",
        TokenKind::Strictfp => "strictfp",
        TokenKind::Super => "super",
        TokenKind::Switch => "switch",
        TokenKind::Synchronized => "synchronized",
        TokenKind::This => "this",
        TokenKind::Throw => "throw",
        TokenKind::Throws => "throws",
        TokenKind::Transient => "transient",
        TokenKind::Try => "try",
        TokenKind::Void => "void",
        TokenKind::Volatile => "volatile",
        TokenKind::While => "while",
        TokenKind::True => "true",
        TokenKind::False => "false",
        TokenKind::Null => "null",
        TokenKind::LeftParen => "(",
        TokenKind::RightParen => ")",
        TokenKind::LeftBrace => "{",
        TokenKind::RightBrace => "}",
        TokenKind::LeftBracket => "[",
        TokenKind::RightBracket => "]",
        TokenKind::Semicolon => ";",
        TokenKind::Comma => ",",
        TokenKind::Dot => ".",
        TokenKind::At => "@",
        TokenKind::Assign => "=",
        TokenKind::Greater => ">",
        TokenKind::Less => "<",
        TokenKind::Not => "!",
        TokenKind::Question => "?",
        TokenKind::Colon => ":",
        TokenKind::EqualEqual => "==",
        TokenKind::LessEqual => "<=",
        TokenKind::GreaterEqual => ">=",
        TokenKind::NotEqual => "!=",
        TokenKind::AndAnd => "&&",
        TokenKind::OrOr => "||",
        TokenKind::PlusPlus => "++",
        TokenKind::MinusMinus => "--",
        TokenKind::Plus => "+",
        TokenKind::Minus => "-",
        TokenKind::Star => "*",
        TokenKind::Slash => "/",
        TokenKind::Percent => "%",
        TokenKind::PlusAssign => "+=",
        TokenKind::MinusAssign => "-=",
        TokenKind::StarAssign => "*=",
        TokenKind::SlashAssign => "/=",
        TokenKind::PercentAssign => "%=",
    }
}

/// Whether the text begins with the word.
fn begins(text: &[char], word: &str) -> bool
    ensures { result ≡ begins text.now word.now }
{
    let word = word.as_bytes();
    if text.len() < word.len() {
        return false;
    }
    for i in 0..word.len() {
        if text[i] != word[i] as char {
            return false;
        }
    }
    true
}

/// The first of the kinds whose spelling stands at the text's front.
fn kind_begun(kinds: &[TokenKind], text: &[char]) -> Option<TokenKind>
    ensures { result ≡ find (λ kind. begins text.now (spelling kind)) kinds.now }
{
    for kind in kinds {
        if begins(text, spelling(*kind)) {
            return Some(*kind);
        }
    }
    None
}

/// Whether the characters are the word's.
fn is_spelled(text: &[char], word: &str) -> bool
    ensures { result ≡ is_spelled text.now word.now }
{
    text.len() == word.len() && begins(text, word)
}

/// The first of the kinds whose spelling the word is.
fn kind_spelled(kinds: &[TokenKind], word: &[char]) -> Option<TokenKind>
    ensures { result ≡ find (λ kind. is_spelled word.now (spelling kind)) kinds.now }
{
    for kind in kinds {
        if is_spelled(word, spelling(*kind)) {
            return Some(*kind);
        }
    }
    None
}

/// The words of so many characters that begin with the character, in the order of `WORDS`.
fn words_like(c: char, count: usize) -> &'static [TokenKind]
    ensures { result.now ≡ filter
        (λ kind. begins (spelling kind) (c ∷ []) && nat_eq count (length (spelling kind)))
        WORDS }
{
    match c {
        'a' => match count {
            6 => &[TokenKind::Assert],
            8 => &[TokenKind::Abstract],
            _ => &[],
        },
        'b' => match count {
            4 => &[TokenKind::Byte],
            5 => &[TokenKind::Break],
            7 => &[TokenKind::Boolean],
            _ => &[],
        },
        'c' => match count {
            4 => &[TokenKind::Case, TokenKind::Char],
            5 => &[TokenKind::Catch, TokenKind::Class, TokenKind::Const],
            8 => &[TokenKind::Continue],
            _ => &[],
        },
        'd' => match count {
            2 => &[TokenKind::Do],
            6 => &[TokenKind::Double],
            7 => &[TokenKind::Default],
            _ => &[],
        },
        'e' => match count {
            4 => &[TokenKind::Else, TokenKind::Enum],
            7 => &[TokenKind::Extends],
            _ => &[],
        },
        'f' => match count {
            3 => &[TokenKind::For],
            5 => &[TokenKind::Final, TokenKind::Float, TokenKind::False],
            7 => &[TokenKind::Finally],
            _ => &[],
        },
        'g' => match count {
            4 => &[TokenKind::Goto],
            _ => &[],
        },
        'i' => match count {
            2 => &[TokenKind::If],
            3 => &[TokenKind::Int],
            6 => &[TokenKind::Import],
            9 => &[TokenKind::Interface],
            10 => &[TokenKind::Implements, TokenKind::Instanceof],
            _ => &[],
        },
        'l' => match count {
            4 => &[TokenKind::Long],
            _ => &[],
        },
        'n' => match count {
            3 => &[TokenKind::New],
            4 => &[TokenKind::Null],
            6 => &[TokenKind::Native],
            _ => &[],
        },
        'p' => match count {
            6 => &[TokenKind::Public],
            7 => &[TokenKind::Package, TokenKind::Private],
            9 => &[TokenKind::Protected],
            _ => &[],
        },
        'r' => match count {
            6 => &[TokenKind::Return],
            _ => &[],
        },
        's' => match count {
            5 => &[TokenKind::Short, TokenKind::Super],
            6 => &[TokenKind::Static, TokenKind::Switch],
            8 => &[TokenKind::Strictfp],
            12 => &[TokenKind::Synchronized],
            _ => &[],
        },
        't' => match count {
            3 => &[TokenKind::Try],
            4 => &[TokenKind::This, TokenKind::True],
            5 => &[TokenKind::Throw],
            6 => &[TokenKind::Throws],
            9 => &[TokenKind::Transient],
            _ => &[],
        },
        'v' => match count {
            4 => &[TokenKind::Void],
            8 => &[TokenKind::Volatile],
            _ => &[],
        },
        'w' => match count {
            5 => &[TokenKind::While],
            _ => &[],
        },
        _ => &[],
    }
}

/// The keyword, or the word of a literal, that the word is.
pub fn keyword(word: &[char]) -> Option<TokenKind>
    ensures { result ≡ find (λ kind. is_spelled word.now (spelling kind)) WORDS }
{
    match word {
        [] => None,
        [first, ..] => kind_spelled(words_like(*first, word.len()), word),
    }
}

/// The operators of two characters that begin with the character, in the order of `PAIRS`.
fn pairs_beginning(c: char) -> &'static [TokenKind]
    ensures { result.now ≡ filter (λ kind. begins (spelling kind) (c ∷ [])) PAIRS }
{
    match c {
        '=' => &[TokenKind::EqualEqual],
        '<' => &[TokenKind::LessEqual],
        '>' => &[TokenKind::GreaterEqual],
        '!' => &[TokenKind::NotEqual],
        '&' => &[TokenKind::AndAnd],
        '|' => &[TokenKind::OrOr],
        '+' => &[TokenKind::PlusPlus, TokenKind::PlusAssign],
        '-' => &[TokenKind::MinusMinus, TokenKind::MinusAssign],
        '*' => &[TokenKind::StarAssign],
        '/' => &[TokenKind::SlashAssign],
        '%' => &[TokenKind::PercentAssign],
        _ => &[],
    }
}

/// The operator of two characters at the text's front.
pub fn pair(text: &[char]) -> Option<TokenKind>
    ensures { result ≡ find (λ kind. begins text.now (spelling kind)) PAIRS }
{
    match text {
        [] => None,
        [first, ..] => kind_begun(pairs_beginning(*first), text),
    }
}

/// The separator or the operator that the character alone is.
fn mark(c: char) -> Option<TokenKind>
    ensures { result ≡ find (λ kind. begins (c ∷ []) (spelling kind)) SINGLES }
{
    match c {
        '(' => Some(TokenKind::LeftParen),
        ')' => Some(TokenKind::RightParen),
        '{' => Some(TokenKind::LeftBrace),
        '}' => Some(TokenKind::RightBrace),
        '[' => Some(TokenKind::LeftBracket),
        ']' => Some(TokenKind::RightBracket),
        ';' => Some(TokenKind::Semicolon),
        ',' => Some(TokenKind::Comma),
        '.' => Some(TokenKind::Dot),
        '@' => Some(TokenKind::At),
        '=' => Some(TokenKind::Assign),
        '>' => Some(TokenKind::Greater),
        '<' => Some(TokenKind::Less),
        '!' => Some(TokenKind::Not),
        '?' => Some(TokenKind::Question),
        ':' => Some(TokenKind::Colon),
        '+' => Some(TokenKind::Plus),
        '-' => Some(TokenKind::Minus),
        '*' => Some(TokenKind::Star),
        '/' => Some(TokenKind::Slash),
        '%' => Some(TokenKind::Percent),
        _ => None,
    }
}

/// The separator or the operator of one character at the text's front.
pub fn single(text: &[char]) -> Option<TokenKind>
    ensures { result ≡ find (λ kind. begins text.now (spelling kind)) SINGLES }
{
    match text {
        [] => None,
        [first, ..] => mark(*first),
    }
}
