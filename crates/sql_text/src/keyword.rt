//! The words of the grammar, which are no names.
ghost use Rattle.std.specs.Prelude.{◌≡◌};
ghost use Rattle.std.specs.Str.{str_eq_ignore_ascii_case};
ghost use Rattle.sql_text.specs.Keywords.{keyword_text, keyword_in, keyword_of};

/// A word of the grammar.
#[derive(Clone, Copy, Debug, PartialEq, Eq)]
pub enum Keyword {
    And,
    BigInt,
    Begin,
    Commit,
    Create,
    Delete,
    Drop,
    Engine,
    From,
    Insert,
    Install,
    Into,
    Is,
    Key,
    Not,
    Null,
    Or,
    Plugin,
    Primary,
    Release,
    Rollback,
    Savepoint,
    Select,
    Set,
    Soname,
    Start,
    Table,
    To,
    Transaction,
    Uninstall,
    Update,
    Values,
    VarChar,
    Where,
    Work,
}

const KEYWORDS: [Keyword; 35] = [
    Keyword::And,
    Keyword::BigInt,
    Keyword::Begin,
    Keyword::Commit,
    Keyword::Create,
    Keyword::Delete,
    Keyword::Drop,
    Keyword::Engine,
    Keyword::From,
    Keyword::Insert,
    Keyword::Install,
    Keyword::Into,
    Keyword::Is,
    Keyword::Key,
    Keyword::Not,
    Keyword::Null,
    Keyword::Or,
    Keyword::Plugin,
    Keyword::Primary,
    Keyword::Release,
    Keyword::Rollback,
    Keyword::Savepoint,
    Keyword::Select,
    Keyword::Set,
    Keyword::Soname,
    Keyword::Start,
    Keyword::Table,
    Keyword::To,
    Keyword::Transaction,
    Keyword::Uninstall,
    Keyword::Update,
    Keyword::Values,
    Keyword::VarChar,
    Keyword::Where,
    Keyword::Work,
];

impl Keyword {
    fn text(self) -> &'static [u8]
        ensures { result.now ≡ keyword_text self }
    {
        match self {
            Keyword::And => b"AND",
            Keyword::BigInt => b"BIGINT",
            Keyword::Begin => b"BEGIN",
            Keyword::Commit => b"COMMIT",
            Keyword::Create => b"CREATE",
            Keyword::Delete => b"DELETE",
            Keyword::Drop => b"DROP",
            Keyword::Engine => b"ENGINE",
            Keyword::From => b"FROM",
            Keyword::Insert => b"INSERT",
            Keyword::Install => b"INSTALL",
            Keyword::Into => b"INTO",
            Keyword::Is => b"IS",
            Keyword::Key => b"KEY",
            Keyword::Not => b"NOT",
            Keyword::Null => b"NULL",
            Keyword::Or => b"OR",
            Keyword::Plugin => b"PLUGIN",
            Keyword::Primary => b"PRIMARY",
            Keyword::Release => b"RELEASE",
            Keyword::Rollback => b"ROLLBACK",
            Keyword::Savepoint => b"SAVEPOINT",
            Keyword::Select => b"SELECT",
            Keyword::Set => b"SET",
            Keyword::Soname => b"SONAME",
            Keyword::Start => b"START",
            Keyword::Table => b"TABLE",
            Keyword::To => b"TO",
            Keyword::Transaction => b"TRANSACTION",
            Keyword::Uninstall => b"UNINSTALL",
            Keyword::Update => b"UPDATE",
            Keyword::Values => b"VALUES",
            Keyword::VarChar => b"VARCHAR",
            Keyword::Where => b"WHERE",
            Keyword::Work => b"WORK",
        }
    }
}

fn is_same(a: &[u8], b: &[u8]) -> bool
    ensures { result ≡ str_eq_ignore_ascii_case a.now b.now }
{
    a.eq_ignore_ascii_case(b)
}

fn is_word(keyword: Keyword, word: &[u8]) -> bool
    ensures { result ≡ str_eq_ignore_ascii_case (keyword_text keyword) word.now }
{
    let text = keyword.text();
    is_same(text, word)
}

fn keyword_in(mut keywords: &[Keyword], word: &[u8]) -> Option<Keyword>
    ensures { result ≡ keyword_in keywords.entry.now word.now }
{
    while let [keyword, rest @ ..] = keywords {
        if is_word(*keyword, word) {
            return Some(*keyword);
        }
        keywords = rest;
    }
    None
}

/// The keyword that a word is, upper or lower case.
pub fn find_keyword(word: &[u8]) -> Option<Keyword>
    ensures { result ≡ keyword_of word.now }
{
    keyword_in(&KEYWORDS, word)
}
