//! A lexer that is fed.
ghost use Rattle.std.specs.Prelude.{ℕ, List as Seq, ◌≡◌, ◌≤◌, ◌+◌, ◌++◌, [], true, false, Err, length, drop, IfOk, OnErr, OnOk};
ghost use Rattle.cx_lexer.specs.Fed.{Counted, Goes, Holds, ran_out};
ghost use Rattle.cx_tokens.specs.Marks.{Counts};
ghost use Rattle.cx_tokens.specs.Reached.{Answers, Stands};

use cx_base::{List, Memory};
use cx_source::Feed;
use cx_tokens::{Here, LexAnswer, Token, advance, finish, start};
use std::alloc::Global;
use std::marker::Model;

// Room that is taken at once for the bytes of a piece and of a run that isn't closed.
const ROOM: usize = 8192;

/// Takes the bytes of a source by pieces, and has its tokens or its first lexical fault at the end ([lex]). It keeps the
/// tokens so far and the bytes of the run that isn't closed yet, and after a fault only that and the count of bytes.
#[derive(Drop)]
pub struct Lexer {
    alloc: Global,
    tokens: List<Token>,
    here: Here,
    // The bytes behind `here`.
    front: Vec<u8>,
    // A run that isn't closed is read anew only where it has so many bytes, twice as many as at the last time, and where a
    // byte came that may end it.
    wait: usize,
    ending: bool,
    count: usize,
    ended: Option<LexAnswer>,
}

impl Model for Lexer {
    ghost use Rattle.cx_lexer.specs.Fed.{Counted, Fed};

    ghost Value = { Fed };

    ghost view = { λ s. record { tokens = s.tokens; here = s.here; front = s.front.items; count = s.count; ended = s.ended } };

    ghost invariant = { λ s. Counted s.here s.front.items s.count };
}

// Puts the piece behind the bytes.
fn put(bytes: &mut Vec<u8>, piece: &[u8]) -> Result<(), Memory>
    ensures ok { OnOk result (bytes.new.items ≡ bytes.old.items ++ piece.now) }
    ensures err { OnErr result (bytes.new.items ≡ bytes.old.items) }
{
    match bytes.extend_from_slice(piece) {
        Ok(()) => Ok(()),
        Err(_) => Err(Memory),
    }
}

// So many bytes behind a run tell that it ends there.
const AHEAD: usize = 3;

// Whether the run at the front may have ended since it had so many bytes: an open comment or string literal only behind its
// last character, or a new line ([lex.comment], [lex.string]).
fn may_end(front: &[u8], before: usize) -> bool {
    let told = before.saturating_sub(AHEAD)..front.len().saturating_sub(AHEAD);
    let Some(told) = front.get(told) else {
        return true;
    };
    match front {
        [b'/', b'*', ..] => told.contains(&b'/'),
        [b'/', b'/', ..] => told.contains(&b'\n'),
        [b'"', ..] => told.contains(&b'"') || told.contains(&b'\n'),
        _ => true,
    }
}

// Leaves what stands from a place on.
fn keep_from(bytes: &mut Vec<u8>, at: usize)
    requires { at ≤ length bytes.old.items }
    ensures { bytes.new.items ≡ drop at bytes.old.items }
{
    bytes.drain(..at);
}

// Over the pieces at the front that are decided, whose bytes go.
fn go_on(
    alloc: Global,
    tokens: &mut List<Token>,
    front: &mut Vec<u8>,
    here: Here,
) -> Result<Here, LexAnswer>
    requires room { here.at + length front.old.items ≤ 4_194_305 }
    requires counted { Counts here.mark here.at }
    ensures goes { (bytes : Seq ℕ) → drop here.at bytes ≡ front.old.items → Stands bytes here tokens.old → Goes bytes tokens.new front.new.items result }
    ensures counted { IfOk result (λ next. Counted next front.new.items (here.at + length front.old.items)) }
    ensures kept { OnErr result (front.new.items ≡ front.old.items) }
{
    match advance(alloc, tokens, front.as_slice(), here) {
        Ok(next) => {
            keep_from(front, next.at - here.at);
            Ok(next)
        }
        Err(answer) => Err(answer),
    }
}

impl Lexer {
    /// It was fed nothing yet.
    pub fn new(alloc: Global) -> Result<Lexer, Memory>
        ensures empty { IfOk result (λ s. ⟦<Lexer as Feed>⟧.holds s []) }
        ensures none { IfOk result (λ s. ⟦<Lexer as Feed>⟧.count s ≡ 0) }
        ensures fresh { IfOk result (λ s. ⟦<Lexer as Feed>⟧.failed s ≡ false) }
    {
        match Vec::with_capacity(alloc, ROOM) {
            Ok(front) => Ok(Lexer {
                alloc,
                tokens: List::new(alloc),
                here: start(),
                front,
                wait: 0,
                ending: false,
                count: 0,
                ended: None,
            }),
            Err(_) => Err(Memory),
        }
    }

    /// The tokens of all the bytes that it was fed and `End` behind them, or their first lexical fault, wherever they were
    /// cut ([lex]). Where a feed ran out of memory, so does this.
    pub fn end(self) -> Result<List<Token>, LexAnswer>
        ensures answers { (bytes : Seq ℕ) → ⟦<Lexer as Feed>⟧.holds self bytes → Answers bytes result }
        ensures memory { ⟦<Lexer as Feed>⟧.failed self ≡ true → result ≡ Err LexAnswer.Memory }
    {
        let Lexer {
            alloc,
            tokens,
            here,
            front,
            wait: _,
            ending: _,
            count: _,
            ended,
        } = self;
        match ended {
            Some(answer) => Err(answer),
            None => finish(alloc, tokens, front.as_slice(), here),
        }
    }
}

impl Feed for Lexer {
    ghost holds = { λ s bytes. Holds s bytes };

    ghost count = { λ s. s.count };

    ghost failed = { λ s. ran_out s.ended };

    fn feed(&mut self, piece: &[u8]) -> Result<(), Memory> {
        self.count += piece.len();
        match &self.ended {
            Some(LexAnswer::Fault(_)) => return Ok(()),
            Some(LexAnswer::Memory) => return Err(Memory),
            None => {}
        }
        let before = self.front.len();
        match put(&mut self.front, piece) {
            Ok(()) => {}
            Err(Memory) => {
                self.ended = Some(LexAnswer::Memory);
                return Err(Memory);
            }
        }
        self.ending |= may_end(self.front.as_slice(), before);
        if !self.ending || self.front.len() < self.wait {
            return Ok(());
        }
        self.ending = false;
        match go_on(self.alloc, &mut self.tokens, &mut self.front, self.here) {
            Ok(next) => {
                self.here = next;
                self.wait = self.front.len().saturating_mul(2);
                Ok(())
            }
            Err(LexAnswer::Memory) => {
                self.ended = Some(LexAnswer::Memory);
                Err(Memory)
            }
            Err(LexAnswer::Fault(fault)) => {
                self.front = Vec::new(self.alloc);
                self.ended = Some(LexAnswer::Fault(fault));
                Ok(())
            }
        }
    }
}
