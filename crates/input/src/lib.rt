// The reader that holds its text and its current token: thin, over the plain functions on the text and a token.
#![tactic(auto)]

ghost use Rattle.std.specs.Prelude.{◌≤◌, ◌≡◌, length};
ghost use Rattle.notation.specs.Parser.{next as next_d};
ghost use Rattle.tokens.specs.Promise.{stream, end_in, arrival, Lies};
ghost use Rattle.reader.specs.Whole.{First, Measures, Reads};

use error::Stop;
use lexer::Token;
use reader::blocks::Extent;
use reader::whole;

// The source text, and the current token by value. What is asked of the two (`First`, and the length of the text) no field's type can say.
#[derive(Clone, Copy)]
pub struct Reader<'a> {
    pub source: &'a [u8],
    pub token: Token,
}

// Each takes the reader apart and calls a plain function, or none.
impl<'a> Reader<'a> {
    pub fn new(source: &'a [u8], token: Token) -> Reader<'a>
        ensures { (result.source ≡ source.entry) × (result.token ≡ token) }
    {
        Reader { source, token }
    }

    // The token after the current one; at the end, the end.
    pub fn next(self) -> Result<Token, Stop>
        ensures { (next_d (stream self.entry.source.now self.entry.token) ≡ arrival self.entry.source.now result)
            × Lies self.entry.source.now (end_in self.entry.token) result }
    {
        tokens::next(self.source, self.token)
    }

    // At the first token: how many words and bytes the tree of the text takes.
    pub fn measure(self) -> Result<Extent, Stop>
        requires { (length self.source.now ≤ 0x10000) × First self.source.now self.token }
        ensures { Measures self.entry.source.now result }
    {
        whole::measure_from(self.source, self.token)
    }

    // At the first token: the tree of the text is stored where there is room for all of it.
    pub fn parse(self, records: &mut [u32], texts: &mut [u8]) -> Result<Extent, Stop>
        requires { (length self.source.now ≤ 0x10000) × First self.source.now self.token }
        ensures { Reads self.entry.source.now records.old texts.old records.new texts.new result }
    {
        whole::parse_from(self.source, self.token, records, texts)
    }
}

// How many words and bytes the tree of a text takes.
pub fn measure(source: &[u8]) -> Result<Extent, Stop>
    requires { length source.now ≤ 0x10000 }
    ensures { Measures source.now result }
{
    let token = tokens::arrive(source, 0)?;
    Reader::new(source, token).measure()
}

// The tree of a text is measured, and stored where there is room for all of it.
pub fn parse(source: &[u8], records: &mut [u32], texts: &mut [u8]) -> Result<Extent, Stop>
    requires { length source.now ≤ 0x10000 }
    ensures { Reads source.now records.old texts.old records.new texts.new result }
{
    let first = tokens::arrive(source, 0)?;
    Reader::new(source, first).parse(records, texts)
}
