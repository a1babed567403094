// What the command says of itself: its usage, each tool, each cause of a refusal. It only shows; no contract speaks of it.

use std::io;
use std::io::Write;

pub const VERSION: &str = "hemvuda 1.0.0
Unicode 17.0.0
rattle-kit-13f logic dac8208d650f15bf
";

pub const USAGE: &str = "usage: hemvuda TOOL [options] [FILE..]

Reads Lezer grammar files and writes each out in one fixed way, its normal text.

  normal [-o F] [-w] [FILE..]  prints the normal text
  check [-d] [FILE..]          names the files that are not in normal form
  same [-q] A B                says whether two grammars agree
  why [FILE]                   says why a grammar is refused, and what to do
  help [TOOL or N]             explains a tool, or cause N of a refusal
  version                      prints versions

No FILE, or -, is standard input. -- ends the options. Results go to standard
output, all else to standard error.
Status: 0 done or yes, 1 refused or no, 2 no answer.
";

// Behind the reason why the arguments ask for nothing.
pub const HINT: &str = "usage: hemvuda TOOL [options] [FILE..]; hemvuda help says more\n";

// The usage of a tool.
pub fn tool(name: &[u8]) -> Option<&'static str> {
    match name {
        b"normal" => Some(
            "usage: hemvuda normal [-o F] [-w] [FILE..]

Prints the normal text of a grammar.

  -o F  writes it to the file F; - is standard output
  -w    writes it back to each FILE that is accepted and is not its own normal
        text already

One FILE, or none, is allowed without -w. A file is replaced only once its new
text is written whole and safe on the disk. Nothing is written for a text that
is refused.

Status: 0 all are accepted, 1 one is refused, 2 one cannot be read or written.
",
        ),
        b"check" => Some(
            "usage: hemvuda check [-d] [FILE..]

Prints the names of the files that are not in normal form.

  -d  prints for each the first line that differs: < is the file's, > that of
      its normal text

Status: 0 all are, 1 one is not, 2 one is refused or cannot be read.
",
        ),
        b"same" => Some(
            "usage: hemvuda same [-q] A B

Says whether two grammars agree, which is whether their normal texts are equal.
Prints nothing if they do, and else the first line in which their normal texts
differ: < is that of A, > that of B.

  -q  prints nothing in any case

Status: 0 they agree, 1 they do not, 2 one is refused or cannot be read.
",
        ),
        b"why" => Some(
            "usage: hemvuda why [FILE]

Says why a grammar is refused: the refusal, the line and its place, what it
means and what to do.

Status: 0 it is accepted, 1 it is refused, 2 it cannot be read.
",
        ),
        b"help" => Some(
            "usage: hemvuda help [TOOL or N]

Prints how hemvuda is used, how a tool is, or what cause N of a refusal means,
with an example and what to do; N is from 1 to 25.
",
        ),
        b"version" => Some(
            "usage: hemvuda version

Prints the version, the edition of Unicode, and the kit with which the program
was proved.
",
        ),
        _ => None,
    }
}

// Of each cause its title, what it means, where it stands with the smallest example, and what to do. Lines of at most 80 columns.
const CAUSES: [[&str; 4]; 25] = [
    [
        "text over 65,535 bytes",
        "Meaning: A grammar may have at most 65,535 bytes. This text has more, and
nothing of it was read.",
        "Place: always 0.
Example: a text of 65,536 spaces is refused 1 at 0 line 1 column 0",
        "Remedy: Take out what is not needed, such as comments, or split the grammar into
several files that are used on their own. Parts that a tool has written, as long
sets of codes, can often be said shorter, by spans or by a class such as
@asciiLetter.",
    ],
    [
        "not UTF-8",
        "Meaning: The text has bytes that are no UTF-8, the only encoding that is read.
Often the file was saved in another encoding, or is no text at all.",
        "Place: the first byte of the first sequence that is not UTF-8.
Example: the single byte FF is refused 2 at 0 line 1 column 0",
        "Remedy: Save the file as UTF-8. `iconv -f latin1 -t utf-8` turns Latin-1 into
it, for example.",
    ],
    [
        "level 65, or a 65th stacked repeat",
        "Meaning: Expressions are nested more than 64 levels deep, or more than 64 repeat
marks (`*`, `+`, `?`) stand directly one over another. A rule's body is level 1;
round brackets, arguments and the bodies of rules within rules each open one
more.",
        "Place: the first token of level 65, or the 65th mark.
Example: `@top T{` and 64 times `(` is refused 3 at 71 line 1 column 71",
        "Remedy: Give an inner part a rule of its own and use its name. Of stacked repeat
marks one is mostly enough.",
    ],
    [
        "unexpected character, unclosed comment",
        "Meaning: This character begins nothing that a grammar may hold, or a comment
that begins with `/*` has no `*/` behind it.",
        "Place: the character, or where the comment begins.
Example: `%` is refused 4 at 0 line 1 column 0",
        "Remedy: Take the character out, or put it in quotes if it is meant literally.
Close the comment by `*/`. Names are made of letters, digits, `_` and `-`. Some
characters only look like the usual ones, such as typographic quotes.",
    ],
    [
        "unterminated string",
        "Meaning: A string begins here and has no closing quote of the same sort behind
it, or a backslash in it stands at the end of a line.",
        "Place: the opening quote.
Example: `\"` is refused 5 at 0 line 1 column 0",
        "Remedy: Close the string. A quote of the same sort within it is written `\\\"` or
`\\'`, and a backslash `\\\\`. Where the strings before this one look right, one of
them may be closed too late.",
    ],
    [
        "@ without a name",
        "Meaning: Behind an `@` there has to stand a word such as `top` or `tokens`, with
no space between.",
        "Place: the `@`.
Example: `@` is refused 6 at 0 line 1 column 0",
        "Remedy: Write the word right behind the `@`, or put the `@` in quotes if it is
meant literally.",
    ],
    [
        "unterminated set",
        "Meaning: A set of characters begins here, by `$[` or `![`, and has no `]` behind
it.",
        "Place: where the set begins.
Example: `$[a` is refused 7 at 0 line 1 column 0",
        "Remedy: Close the set by `]`. A `]` that belongs to the set is written `\\]`, and
a backslash `\\\\`.",
    ],
    [
        "unexpected token",
        "Meaning: What stands here cannot follow what was read so far. Often a brace or
bracket is missing or stands there twice, a comma stands behind the last of a
list, or a rule's name has no body behind it.",
        "Place: the token.
Example: `}` is refused 8 at 0 line 1 column 0",
        "Remedy: Look at this place and at what stands just before it: close each `{`,
`[`, `(` and `<`, leave out a comma before a closing bracket, and give each rule
a body in braces. Lezer's guide says what may stand where.",
    ],
    [
        "@top without a name at top level",
        "Meaning: The top rule has to have a name: `@top Program { .. }`.",
        "Place: the token behind `@top`, or the end of the text.
Example: `@top {a}` is refused 9 at 5 line 1 column 5",
        "Remedy: Write a name between `@top` and the brace.",
    ],
    [
        "second @tokens",
        "Meaning: A grammar has at most one block `@tokens`.",
        "Place: the second `@tokens`.
Example: `@tokens{} @tokens{}` is refused 10 at 10 line 1 column 10",
        "Remedy: Move what the second block holds into the first. Tokens that hold in one
place only go into `@local tokens`.",
    ],
    [
        "second @precedence",
        "Meaning: Outside of `@tokens` a grammar has at most one block `@precedence`.",
        "Place: the second `@precedence`.
Example: `@precedence{a} @precedence{b}` is refused 11 at 15 line 1 column 15",
        "Remedy: Move the names of the second block into the first; those that bind
stronger stand first.",
    ],
    [
        "second @context",
        "Meaning: A grammar has at most one `@context`.",
        "Place: the second `@context`.
Example: `@context a from \"b\" @context a from \"b\"` is refused 12 at 20 line 1
column 20",
        "Remedy: Keep one of the two. A context tracker that does the work of both can be
written in the source that it comes from.",
    ],
    [
        "second main @skip",
        "Meaning: A grammar has at most one `@skip` that holds everywhere. A `@skip` with
a second pair of braces holds for the rules in these alone, and there may be any
number of them.",
        "Place: the second `@skip`.
Example: `@skip{a} @skip{b}` is refused 13 at 9 line 1 column 9",
        "Remedy: Put both expressions into one, as `@skip { a | b }`, or give the second
one the rules that it is for, as `@skip { b } { rule { .. } }`.",
    ],
    [
        "no @top anywhere",
        "Meaning: A grammar has to have at least one top rule, at the top level or in the
rules of a `@skip`. This one was read to its end and has none.",
        "Place: the end of the text.
Example: the empty text is refused 14 at 0 line 1 column 0",
        "Remedy: Write `@top` before the rule that stands for a whole file.",
    ],
    [
        "inline rule with parameters",
        "Meaning: A rule that is written where it is used cannot have parameters.",
        "Place: its name, or its `[` if it has none.
Example: `@top T{x[]<p>{}}` is refused 15 at 7 line 1 column 7",
        "Remedy: Move it out into a rule of its own and use that with arguments, or leave
the parameters out.",
    ],
    [
        "specialize or extend with one part, no literal",
        "Meaning: In its short form, with one part, this part has to be a literal that is
not empty, as in `@specialize<\"if\">`. Otherwise there have to be two parts: the
token, and what it is specialized to.",
        "Place: the keyword.
Example: `@top T{@specialize<a>}` is refused 16 at 7 line 1 column 7",
        "Remedy: Write both parts, as `@specialize<identifier, \"if\">`.",
    ],
    [
        "choice arm that is empty or has only markers",
        "Meaning: Between two `|`, or beside one, there stands nothing but perhaps
markers (`~a`, `!a`).",
        "Place: where the first such arm begins.
Example: `@top T{a|}` is refused 17 at 9 line 1 column 9",
        "Remedy: Take out the `|` that is too much. If nothing is meant to be a choice,
write `()` or `\"\"` for it, or a `?` behind the rest.",
    ],
    [
        "token precedence that is no name or literal",
        "Meaning: A block `@precedence` within tokens lists names of tokens, perhaps with
arguments, and literals, and nothing else.",
        "Place: where the item begins.
Example: `@tokens{@precedence{_}}` is refused 18 at 20 line 1 column 20",
        "Remedy: Give the expression a name as a token and list this name.",
    ],
    [
        "token conflict that is no name or literal",
        "Meaning: A block `@conflict` within tokens holds two names of tokens or
literals, and nothing else.",
        "Place: where the item begins.
Example: `@tokens{@conflict{_,a}}` is refused 19 at 18 line 1 column 18",
        "Remedy: Give the expression a name as a token and write this name.",
    ],
    [
        "reversed span",
        "Meaning: A span of the set, as `a-z`, has a last character that comes before its
first one.",
        "Place: where the set begins.
Example: `@top T{$[z-a]}` is refused 20 at 7 line 1 column 7",
        "Remedy: Swap the two ends. A `-` that is meant literally stands first in the set
or is written `\\-`.",
    ],
    [
        "overlapping span",
        "Meaning: Two spans of the set have a character in common; a character alone is a
span too.",
        "Place: where the set begins.
Example: `@top T{$[aa]}` is refused 21 at 7 line 1 column 7",
        "Remedy: Put overlapping spans together, and leave out what stands there twice.
No escape for a class stands in a set: `$[a-z]` and `@digit` are parts of a
choice, `$[a-z] | @digit`.",
    ],
    [
        "the records need more words than are lent",
        "Meaning: The tree of the text needs more words than the caller lent to the
library. `hemvuda` lends enough for every text and never answers this.",
        "Place: always 0.
Example: in C, `@top T{}` with 20 words of records, one too few, is refused 22
at 0 line 1 column 0",
        "Remedy: Lend what `hemvuda_measure` says, or 28 words for each byte of the text
and 7.",
    ],
    [
        "the texts need more bytes than are lent",
        "Meaning: The names and strings of the text need more bytes than the caller lent
to the library. `hemvuda` lends enough for every text and never answers this.",
        "Place: always 0.
Example: in C, `@top T{}` with no bytes of texts is refused 23 at 0 line 1
column 0",
        "Remedy: Lend what `hemvuda_measure` says, or 6 bytes for each byte of the text.",
    ],
    [
        "normal text over 65,535 bytes, or over the output",
        "Meaning: The grammar is in order, but its normal text, which is written out more
fully, would have more than 65,535 bytes, or more than the output that the
caller lent to the library. `hemvuda` lends 65,535, so there it is the first.",
        "Place: always 0.
Example: `@top T{`, 16,384 times `a|` and `a}` is refused 24 at 0 line 1 column
0",
        "Remedy: Make the grammar smaller: shorter names, and spans such as `a-z` in
place of characters one by one, since each is written as its code. In C, lend
65,535 bytes of output.",
    ],
    [
        "not one tree, or its root is no expression",
        "Meaning: The words that were handed to the library to compare are not the
records of one tree, or their root is no expression. No text shows this, and
`hemvuda` never answers it.",
        "Place: always 0.
Example: in C, to compare no words at all is refused 25 at 0 line 1 column 0",
        "Remedy: Hand over just the records of one expression, as they were stored, with
its texts. Two whole grammars are compared by their normal texts.",
    ],
];

// All that is known of a cause, or that there is none of this number.
pub fn put_cause<W: Write>(number: usize, output: &mut W) -> io::Result<bool> {
    let Some([title, meaning, place, remedy]) = CAUSES.get(number.wrapping_sub(1)) else {
        return Ok(false);
    };
    writeln!(output, "{number}: {title}\n\n{meaning}\n{place}\n{remedy}")?;
    Ok(true)
}

// What a cause means, and what to do.
pub fn put_remedy<W: Write>(number: usize, output: &mut W) -> io::Result<()> {
    let Some([_, meaning, _, remedy]) = CAUSES.get(number.wrapping_sub(1)) else {
        return Ok(());
    };
    writeln!(output, "{meaning}\n{remedy}")
}
