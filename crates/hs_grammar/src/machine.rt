// The machine: a stack of symbols, a state, and the items that were derived so far.
ghost use Rattle.std.specs.Prelude.{◌≡◌, ◌≢◌, ◌+◌, ◌≤◌, ◌<◌, ℕ, List, length, take, drop, slice_index, slice_range, MatchOption, MatchResult, ◌++◌, ◌∷◌, [], IsTrue};
ghost use Rattle.hs_grammar.specs.Grammar.{grammar, rule_of, raw, turned};
ghost use Rattle.hs_grammar.specs.Check.{Table, view_of, seen_as, cell, column, lies_within};
ghost use Rattle.hs_grammar.specs.Answer.{Only, Serves};
ghost use Rattle.hs_grammar.specs.Stands.{accepted, Fails};
ghost use Rattle.hs_grammar.specs.Machine.{StandsAt, Settled, Grows, Refusal, fault_at};
ghost use Rattle.hs_grammar.specs.declared.machine.Stop.TheVariants as Stopped;
ghost use Rattle.hs_grammar.specs.declared.types.Symbol.TheVariants as Symbols;
ghost use Rattle.hs_grammar.specs.declared.types.Fault.TheVariants as Faults;

use crate::types::{CLASSES, Fault, Item, Production, Symbol, Tables, View};
use std::alloc::{AllocError, Global};

/// The class that stands for the end.
const END: u8 = 0;

/// Why the machine stops before the tokens end.
#[derive(Drop)]
enum Stop {
    Stuck,
    Refused,
    NoMemory,
}

#[derive(Drop)]
struct Machine {
    /// What is still to be derived, the next symbol last.
    stack: Vec<Symbol>,
    out: Vec<Item>,
    state: u8,
}

/// The view of a class.
#[inline(always)]
pub fn view_of(views: &[View], class: u8) -> Option<View>
    ensures { result ≡ view_of views.now class }
{
    views.iter().copied().find(|view| view.class == class)
}

/// The column of a token before another one, whose class is 0 where there is none.
#[inline(always)]
fn column_of(views: &[View], class: u8, next: u8) -> u8
    ensures { result ≡ seen_as views.now class next }
{
    match view_of(views, class) {
        Some(view) if view.before == next => view.seen,
        _ => class,
    }
}

/// The column of the token at a place, or of the end.
#[inline(always)]
fn column_at(views: &[View], classes: &[u8], at: usize) -> u8
    ensures { result ≡ column views.now (drop at classes.now) }
{
    match classes.get(at) {
        None => END,
        Some(class) => column_of(views, *class, class_at(classes, at + 1)),
    }
}

#[inline(always)]
pub fn class_at(classes: &[u8], at: usize) -> u8
    ensures { result ≡ slice_index classes.now at }
{
    match classes.get(at) {
        None => 0,
        Some(class) => *class,
    }
}

/// How far a turn goes in this state.
#[inline(always)]
fn turn_in(state: u8) -> usize
    ensures { result ≡ turned state }
{
    match state {
        0 => 0,
        1 => 1,
        _ => 2,
    }
}

/// The production that the table names, 0 for none.
#[inline(always)]
fn choice(rows: &[[u16; CLASSES]], rule: usize, column: u8) -> u16
    ensures { result ≡ cell rows.now rule column }
{
    match rows.get(rule) {
        None => 0,
        Some(row) => row[column as usize],
    }
}

/// The right side of a production of this rule.
#[inline(always)]
fn right_side<'a>(tables: &Tables<'a>, rule: usize, production: u16) -> Option<&'a [Symbol]>
    requires { (p : ℕ) → p < length (grammar tables.now).productions → IsTrue (lies_within (grammar tables.now) p) }
    ensures { let g = grammar tables.now in
        MatchOption result (0 < production → production < length g.productions → rule_of g production ≢ rule)
        (λ r. (0 < production) × (production < length g.productions) × (rule_of g production ≡ rule) × (r.now ≡ raw g production)) }
{
    if production == 0 {
        return None;
    }
    match tables.productions.get(production as usize) {
        Some(p) if p.rule as usize == rule => Some(&tables.symbols[p.from as usize..p.to as usize]),
        _ => None,
    }
}

#[inline(always)]
fn put<T: Copy + Drop>(list: &mut Vec<T>, x: T) -> Result<(), Stop>
    ensures { MatchResult result (λ _. list.new.items ≡ list.old.items ++ x ∷ []) (λ e. e ≡ Stopped.NoMemory) }
{
    match list.push(x) {
        Ok(()) => Ok(()),
        Err(_) => Err(Stop::NoMemory),
    }
}

/// Puts the production that the table names onto the stack.
#[inline(always)]
fn grow(stack: &mut Vec<Symbol>, tables: &Tables<'_>, rule: usize, column: u8) -> Result<(), Stop>
    requires { (p : ℕ) → p < length (grammar tables.now).productions → IsTrue (lies_within (grammar tables.now) p) }
    ensures { Grows (grammar tables.now) tables.now.rows.now rule column stack.old.items stack.new.items result }
{
    let production = choice(tables.rows, rule, column);
    match right_side(tables, rule, production) {
        None => Err(Stop::Stuck),
        Some(right) => match stack.extend_from_slice(right) {
            Ok(()) => Ok(()),
            Err(_) => Err(Stop::NoMemory),
        },
    }
}

/// The state behind a token of this class, where the symbol takes it.
#[inline(always)]
fn accept(symbol: Symbol, state: u8, class: u8) -> Option<u8>
    ensures { result ≡ accepted symbol state class }
{
    match symbol {
        Symbol::Take(only) => if class == only { Some(state) } else { None },
        Symbol::TakeKeep(from, to) => if from <= class && class <= to {
            Some(class)
        } else {
            None
        },
        Symbol::TakeUpTo(from, to) => {
            if from <= class && class <= to && class <= from.max(state) {
                Some(state)
            } else {
                None
            }
        }
        Symbol::Refuse(_, _)
        | Symbol::Rule(_)
        | Symbol::Turn(_)
        | Symbol::Mark(_)
        | Symbol::Keep(_) => None,
    }
}

/// What stops the machine at words of these classes that aren't offered.
#[inline(always)]
fn refuse(from: u8, to: u8, classes: &[u8], at: usize) -> Stop
    ensures { Refusal from to (drop at classes.now) result }
{
    match classes.get(at) {
        Some(class) if from <= *class && *class <= to => Stop::Refused,
        _ => Stop::Stuck,
    }
}

impl Machine {
    /// Works until a symbol that takes a token is next, or nothing is left.
    #[inline(always)]
    fn settle(
        &mut self,
        tables: &Tables<'_>,
        classes: &[u8],
        at: usize,
    ) -> Result<Option<Symbol>, Stop>
        ghost table: { Table }
        requires serves { Serves (grammar tables.now) tables.now.rows.now table }
        requires stands { StandsAt (grammar tables.now) table self.old classes.now at }
        ensures { Settled (grammar tables.now) table self.new classes.now at result }
    {
        let column = column_at(tables.views, classes, at);
        while let Some(next) = self.stack.pop() {
            match next {
                Symbol::Take(_) | Symbol::TakeKeep(_, _) | Symbol::TakeUpTo(_, _) => return Ok(Some(
                    next,
                )),
                Symbol::Refuse(from, to) => return Err(refuse(from, to, classes, at)),
                Symbol::Mark(mark) => {
                    if let Err(stop) = put(&mut self.out, Item::Mark(mark)) {
                        return Err(stop);
                    }
                }
                Symbol::Keep(state) => self.state = state,
                Symbol::Rule(rule) => {
                    if let Err(stop) = grow(&mut self.stack, tables, rule as usize, column) {
                        return Err(stop);
                    }
                }
                Symbol::Turn(rule) => {
                    let further = rule as usize + turn_in(self.state);
                    if let Err(stop) = grow(&mut self.stack, tables, further, column) {
                        return Err(stop);
                    }
                }
            }
        }
        Ok(None)
    }
    /// What stands before the first token.
    fn new(alloc: Global) -> Result<Machine, Fault>
        ensures { MatchResult result (λ m. (m.stack.items ≡ Symbols.Rule 0 ∷ []) × (m.out.items ≡ []) × (m.state ≡ 0)) (λ e. e ≡ Faults.NoMemory) }
    {
        let mut stack = Vec::with_capacity(alloc, 64)?;
        let out = Vec::with_capacity(alloc, 128)?;
        if put(&mut stack, Symbol::Rule(0)).is_err() {
            return Err(Fault::NoMemory);
        }
        Ok(Machine {
            stack,
            out,
            state: 0,
        })
    }

    /// Takes the token at a place.
    #[inline(always)]
    fn step(&mut self, tables: &Tables<'_>, classes: &[u8], at: usize) -> Result<(), Fault>
        ghost table: { Table }
        requires serves { Serves (grammar tables.now) tables.now.rows.now table }
        requires in_range { at < length classes.now }
        requires stands { StandsAt (grammar tables.now) table self.old classes.now at }
        ensures { MatchResult result (λ _. StandsAt (grammar tables.now) table self.new classes.now (at + 1)) (λ e. Fails (grammar tables.now) classes.now e) }
    {
        match self.settle(tables, classes, at) {
            Ok(Some(symbol)) => match accept(symbol, self.state, classes[at]) {
                Some(state) => {
                    self.state = state;
                    match put(&mut self.out, Item::Token(classes[at])) {
                        Ok(()) => Ok(()),
                        Err(_) => Err(Fault::NoMemory),
                    }
                }
                None => Err(Fault::At(at)),
            },
            Ok(None) => Err(Fault::At(at)),
            Err(stop) => Err(fault_of(stop, at)),
        }
    }

    /// The items, if nothing is left behind the last token.
    fn finish(mut self, tables: &Tables<'_>, classes: &[u8]) -> Result<Vec<Item>, Fault>
        ghost table: { Table }
        requires serves { Serves (grammar tables.now) tables.now.rows.now table }
        requires stands { StandsAt (grammar tables.now) table self classes.now (length classes.now) }
        ensures { MatchResult result (λ v. Only (grammar tables.now) classes.now v.items) (λ e. Fails (grammar tables.now) classes.now e) }
    {
        match self.settle(tables, classes, classes.len()) {
            Ok(None) => Ok(self.out),
            Ok(Some(_)) => Err(Fault::At(classes.len())),
            Err(stop) => Err(fault_of(stop, classes.len())),
        }
    }
}

#[inline(always)]
fn fault_of(stop: Stop, at: usize) -> Fault
    ensures { result ≡ fault_at stop at }
{
    match stop {
        Stop::Stuck => Fault::At(at),
        Stop::Refused => Fault::NotOffered(at),
        Stop::NoMemory => Fault::NoMemory,
    }
}

/// The items whose tokens these are, or the fault where only the column of the next token is compared.
pub fn run(alloc: Global, tables: &Tables<'_>, classes: &[u8]) -> Result<Vec<Item>, Fault>
    ghost table: { Table }
    requires { Serves (grammar tables.now) tables.now.rows.now table }
    ensures { MatchResult result (λ v. Only (grammar tables.now) classes.now v.items) (λ e. Fails (grammar tables.now) classes.now e) }
{
    let mut machine = Machine::new(alloc)?;
    for at in 0..classes.len() {
        if let Err(fault) = machine.step(tables, classes, at) {
            return Err(fault);
        }
    }
    machine.finish(tables, classes)
}
