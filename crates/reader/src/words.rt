// The words that declarations begin with.
ghost use Rattle.std.specs.Prelude.{◌≡◌};
ghost use Rattle.tokens.specs.Promise.{Whole, text_in};
ghost use Rattle.reader.specs.Words.{directive_of, external_of};

use lexer::Part;
use tree::SpecializeKind;

// What follows the `@` of a declaration.
#[derive(Clone, Copy, Debug, PartialEq, Eq)]
pub enum Directive {
    Top,
    Tokens,
    Local,
    Context,
    External,
    Dialects,
    Precedence,
    DetectDelim,
    Skip,
}

// What follows `@external`.
#[derive(Clone, Copy, Debug, PartialEq, Eq)]
pub enum External {
    Tokens,
    Prop,
    Specializer(SpecializeKind),
    PropSource,
}

// The directive that a part of the source is, if it is one. By ifs: a match on the bytes would leave a goal for each byte at which a word may
// differ.
pub fn which_directive(source: &[u8], at: Option<Part>) -> Option<Directive>
    requires { Whole source.now at }
    ensures { result ≡ directive_of (text_in source.now at) }
{
    if tokens::says(source, at, b"top") {
        return Some(Directive::Top);
    }
    if tokens::says(source, at, b"tokens") {
        return Some(Directive::Tokens);
    }
    if tokens::says(source, at, b"local") {
        return Some(Directive::Local);
    }
    if tokens::says(source, at, b"context") {
        return Some(Directive::Context);
    }
    if tokens::says(source, at, b"external") {
        return Some(Directive::External);
    }
    if tokens::says(source, at, b"dialects") {
        return Some(Directive::Dialects);
    }
    if tokens::says(source, at, b"precedence") {
        return Some(Directive::Precedence);
    }
    if tokens::says(source, at, b"detectDelim") {
        return Some(Directive::DetectDelim);
    }
    if tokens::says(source, at, b"skip") {
        return Some(Directive::Skip);
    }
    None
}

// The word after `@external` that a part of the source is, if it is one.
pub fn which_external(source: &[u8], name: Option<Part>) -> Option<External>
    requires { Whole source.now name }
    ensures { result ≡ external_of (text_in source.now name) }
{
    if tokens::says(source, name, b"tokens") {
        return Some(External::Tokens);
    }
    if tokens::says(source, name, b"prop") {
        return Some(External::Prop);
    }
    if tokens::says(source, name, b"extend") {
        return Some(External::Specializer(SpecializeKind::Extend));
    }
    if tokens::says(source, name, b"specialize") {
        return Some(External::Specializer(SpecializeKind::Specialize));
    }
    if tokens::says(source, name, b"propSource") {
        return Some(External::PropSource);
    }
    None
}
