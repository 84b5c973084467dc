//! From a script to its canonical text.

ghost use Rattle.std.specs.Prelude.{◌≡◌, ◌++◌, ◌-◌, ◌≤◌, length, nat_le, reverse, codes, true, OnOk, IfOk};
ghost use Rattle.std.specs.List.{take_while};
ghost use Rattle.std.specs.Fmt.{decimal};
ghost use Rattle.pl_spec.specs.Dates.{digits};
ghost use Rattle.pl_spec.specs.Decimals.{point_text};
ghost use Rattle.pl_grammar.specs.Printed.{tree_level};
ghost use Rattle.pl_grammar.specs.Script.{is_known};
ghost use Rattle.pl_syntax.specs.Numerals.{is_zero, trimmed, number_text};
ghost use Rattle.pl_syntax.specs.Canonical.{comma_text, prefix_text, binary_text, open_text, close_text, placed_text, name_text, tree_text, args_text, head_text, statement_text, version_text};
ghost use Rattle.pl_syntax.specs.Plain.{plain, args_tree};
ghost use Rattle.pl_syntax.specs.Statements.{statement_of};
ghost use Rattle.pl_syntax.specs.Scripts.{parsed, printed_text};
ghost use Rattle.pl_syntax.specs.Spells.{SpellsAgain};
ghost use Rattle.pl_syntax.specs.Laws.{ScriptsAreSpelled};

use crate::script::{Script, Statement};
use crate::stack::{left_level_of, level_of, prefix_level_of, right_level_of};
use crate::tree::{ArgList, Expr, ExprNode};
use crate::word::Word;
use pl_fixed::Memory;
use pl_grammar::{BinarySign, PrefixSign};
use std::alloc::{AllocError, Global};

fn put(out: &mut Vec<u8>, bytes: &[u8]) -> Result<(), AllocError>
    ensures { OnOk result (out.new.items ≡ out.old.items ++ bytes.now) }
{
    out.extend_from_slice(bytes)?;
    Ok(())
}

fn prefix_bytes(sign: PrefixSign) -> &'static [u8]
    ensures { result.now ≡ prefix_text sign }
{
    match sign {
        PrefixSign::Minus => b"-",
        PrefixSign::Not => b"~",
    }
}

fn binary_bytes(sign: BinarySign) -> &'static [u8]
    ensures { result.now ≡ binary_text sign }
{
    match sign {
        BinarySign::Or => b" | ",
        BinarySign::And => b" & ",
        BinarySign::Less => b" < ",
        BinarySign::LessEqual => b" <= ",
        BinarySign::Greater => b" > ",
        BinarySign::GreaterEqual => b" >= ",
        BinarySign::Equal => b" == ",
        BinarySign::NotEqual => b" != ",
        BinarySign::Add => b" + ",
        BinarySign::Sub => b" - ",
        BinarySign::Mul => b" * ",
        BinarySign::Div => b" / ",
    }
}

// The level of an expression, from 1 for `|` to 9 for what needs no parentheses anywhere.
fn level_in(expr: &Expr) -> u8
    ensures { result ≡ tree_level (plain expr.now) }
{
    match &expr.node {
        ExprNode::Prefix { sign, .. } => prefix_level_of(*sign),
        ExprNode::Binary { sign, .. } => level_of(*sign),
        ExprNode::Member { .. } => 8,
        ExprNode::Number(_) | ExprNode::Text(_) | ExprNode::Name(_) | ExprNode::Call { .. } => 9,
    }
}

fn open_unless(fits: bool, out: &mut Vec<u8>) -> Result<(), AllocError>
    ensures { OnOk result (out.new.items ≡ out.old.items ++ open_text fits) }
{
    if fits { Ok(()) } else { put(out, b"(") }
}

fn close_unless(fits: bool, out: &mut Vec<u8>) -> Result<(), AllocError>
    ensures { OnOk result (out.new.items ≡ out.old.items ++ close_text fits) }
{
    if fits { Ok(()) } else { put(out, b")") }
}

// How many zeros stand at the end.
fn zeros_behind(digits: &[u8]) -> usize
    ensures { result ≡ length (take_while is_zero (reverse digits.now)) }
{
    digits.iter().rev().take_while(|d| **d == b'0').count()
}

// A number in decimal, without zeros in front.
fn put_decimal(number: u64, out: &mut Vec<u8>) -> Result<(), AllocError>
    ensures { OnOk result (out.new.items ≡ out.old.items ++ decimal number) }
{
    if number < 10 {
        put(out, &[b'0' + number as u8])
    } else {
        put_decimal(number / 10, out)?;
        put(out, &[b'0' + (number % 10) as u8])
    }
}

// The six digits of a number below a million.
#[tactic(auto, unfolding(pl_spec::specs::Dates::digits))]
fn six_digits(number: u64) -> [u8; 6]
    ensures { result ≡ digits 6 number }
{
    let tens = number / 10;
    let hundreds = tens / 10;
    let thousands = hundreds / 10;
    let ten_thousands = thousands / 10;
    let hundred_thousands = ten_thousands / 10;
    [
        b'0' + (hundred_thousands % 10) as u8,
        b'0' + (ten_thousands % 10) as u8,
        b'0' + (thousands % 10) as u8,
        b'0' + (hundreds % 10) as u8,
        b'0' + (tens % 10) as u8,
        b'0' + (number % 10) as u8,
    ]
}

// A point and digits, or nothing where there are none.
fn put_fraction(digits: &[u8], out: &mut Vec<u8>) -> Result<(), AllocError>
    ensures { OnOk result (out.new.items ≡ out.old.items ++ point_text digits.now) }
{
    match digits {
        [] => Ok(()),
        [..] => {
            put(out, b".")?;
            put(out, digits)
        }
    }
}

// Digits without the zeros at their end.
fn trimmed_digits(digits: &[u8]) -> &[u8]
    ensures { result.now ≡ trimmed digits.now }
{
    &digits[..digits.len() - zeros_behind(digits)]
}

// A number of millionths.
#[tactic(auto, unfolding(crate::specs::Numerals::number_text, crate::specs::Numerals::fraction_of))]
fn put_number(value: i64, out: &mut Vec<u8>) -> Result<(), AllocError>
    ensures { OnOk result (out.new.items ≡ out.old.items ++ number_text value) }
{
    let number = value.unsigned_abs();
    put_decimal(number / 1_000_000, out)?;
    let digits = six_digits(number % 1_000_000);
    put_fraction(trimmed_digits(&digits), out)
}

// The name of an argument.
fn put_name(name: &Option<Word>, out: &mut Vec<u8>) -> Result<(), AllocError>
    ensures { OnOk result (out.new.items ≡ out.old.items ++ name_text name.now) }
{
    match name {
        Some(name) => {
            put(out, name.bytes())?;
            put(out, b"=")
        }
        None => Ok(()),
    }
}

// A string with its quotes.
fn put_quoted(text: &[u8], out: &mut Vec<u8>) -> Result<(), AllocError>
    ensures { OnOk result (out.new.items ≡ out.old.items ++ (codes "\"" ++ (text.now ++ codes "\""))) }
{
    put(out, b"\"")?;
    put(out, text)?;
    put(out, b"\"")
}

// The name of a member after its dot.
fn put_dotted(name: &[u8], out: &mut Vec<u8>) -> Result<(), AllocError>
    ensures { OnOk result (out.new.items ≡ out.old.items ++ (codes "." ++ name.now)) }
{
    put(out, b".")?;
    put(out, name)
}

#[cycle(print)]
#[tactic(auto, unfolding(crate::specs::Canonical::tree_text))]
fn put_expr(expr: &Expr, out: &mut Vec<u8>) -> Result<(), AllocError>
    ensures { OnOk result (out.new.items ≡ out.old.items ++ tree_text (plain expr.now)) }
{
    match &expr.node {
        ExprNode::Number(value) => put_number(*value, out),
        ExprNode::Text(text) => put_quoted(text.bytes(), out),
        ExprNode::Name(name) => put(out, name.bytes()),
        ExprNode::Call { name, args } => {
            put(out, name.bytes())?;
            put_args(args, out)
        }
        ExprNode::Prefix { sign, operand } => {
            put(out, prefix_bytes(*sign))?;
            put_placed(prefix_level_of(*sign), operand, out)
        }
        ExprNode::Binary { sign, left, right } => {
            put_placed(left_level_of(*sign), left, out)?;
            put(out, binary_bytes(*sign))?;
            put_placed(right_level_of(*sign), right, out)
        }
        ExprNode::Member { object, name, args } => {
            put_placed(8, object, out)?;
            put_dotted(name.bytes(), out)?;
            match args {
                Some(args) => put_args(args, out),
                None => Ok(()),
            }
        }
    }
}

// An operand at a place that asks for this level: in parentheses where its own is below.
#[cycle(print)]
fn put_placed(asked: u8, expr: &Expr, out: &mut Vec<u8>) -> Result<(), AllocError>
    ensures { OnOk result (out.new.items ≡ out.old.items
        ++ placed_text (nat_le asked (tree_level (plain expr.now))) (tree_text (plain expr.now))) }
{
    let fits = asked <= level_in(expr);
    open_unless(fits, out)?;
    put_expr(expr, out)?;
    close_unless(fits, out)
}

#[cycle(print)]
fn put_args(list: &ArgList, out: &mut Vec<u8>) -> Result<(), AllocError>
    ensures { OnOk result (out.new.items ≡ out.old.items ++ args_text (args_tree list.now)) }
{
    put(out, b"(")?;
    let mut first = true;
    for arg in &list.args {
        separate(first, out)?;
        first = false;
        put_name(&arg.name, out)?;
        put_expr(&arg.expr, out)?;
    }
    put(out, b")")
}

// What stands before an argument that isn't the first.
fn separate(first: bool, out: &mut Vec<u8>) -> Result<(), AllocError>
    ensures { OnOk result (out.new.items ≡ out.old.items ++ comma_text first) }
{
    if first { Ok(()) } else { put(out, b", ") }
}

// How a statement begins.
fn put_head(word: &[u8], name: &Word, out: &mut Vec<u8>) -> Result<(), AllocError>
    ensures { OnOk result (out.new.items ≡ out.old.items ++ (word.now ++ (name.now ++ codes " = "))) }
{
    put(out, word)?;
    put(out, name.bytes())?;
    put(out, b" = ")
}

// A statement on its line.
fn put_statement(statement: &Statement, out: &mut Vec<u8>) -> Result<(), AllocError>
    ensures { OnOk result (out.new.items ≡ out.old.items ++ statement_text (statement_of statement.now)) }
{
    match statement {
        Statement::Let { name, expr, .. } => {
            put_head(b"let ", name, out)?;
            put_expr(expr, out)?;
        }
        Statement::Column { name, expr, .. } => {
            put_head(b"column ", name, out)?;
            put_expr(expr, out)?;
        }
        Statement::Screen { expr, .. } => {
            put(out, b"screen ")?;
            put_expr(expr, out)?;
        }
    }
    put(out, b";\n")
}

// The first line of a version's scripts.
fn version_line(version: u32) -> &'static [u8]
    requires { is_known version ≡ true }
    ensures { result.now ≡ version_text version }
{
    if version == 1 {
        b"pipeline 1;\n"
    } else if version == 2 {
        b"pipeline 2;\n"
    } else if version == 3 {
        b"pipeline 3;\n"
    } else {
        b"pipeline 4;\n"
    }
}

// The canonical text, in memory of its own.
fn text_of(alloc: Global, script: &Script) -> Result<Vec<u8>, AllocError>
    ensures { IfOk result (λ v. v.items ≡ printed_text script.now) }
{
    let mut out = Vec::new(alloc);
    put(&mut out, version_line(script.version()))?;
    for statement in script.statements() {
        put_statement(statement, &mut out)?;
    }
    Ok(out)
}

/// The canonical text of a script, one statement a line, each ended by LF: parentheses are exactly where the
/// levels ask for them. `parse` reads it as the same script, places aside, where it has at most 262,144
/// bytes. The only error is want of memory.
pub fn print(alloc: Global, script: &Script) -> Result<Vec<u8>, Memory>
    ensures text { IfOk result (λ v. v.items ≡ printed_text script.now) }
    ensures again { IfOk result (λ v. SpellsAgain v.items (parsed script.now)) }
{
    let text = text_of(alloc, script)?;
    Ok(text)
}

/// Whatever can be written is spelled by its canonical text, so each script is spelled by some bytes.
pub fn scripts_are_spelled()
    ensures { ScriptsAreSpelled }
{}
