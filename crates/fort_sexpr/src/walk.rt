//! Goes over the bytes of a text from left to right, as far as they have come.
ghost use Rattle.std.specs.Prelude.{◌≡◌, ◌+◌, ◌<◌, ◌≤◌, ◌^◌, ℕ, List, length, reverse, slice_index, vec_len, vec_capacity, IfOk, IfErr, IfSome, IfNone, IsErrOf, OnOk, OnErr};
ghost use Rattle.fort_grammar.specs.Forms.{AreFormsOf};
ghost use Rattle.fort_grammar.specs.Text.{IsFaultlessBelow};
ghost use Rattle.fort_sexpr.specs.declared.fault.SFault.TheVariants.{Memory};
ghost use Rattle.fort_sexpr.specs.Faults.{IsFirstFaultUnlessMemory, IsFaultOfFrontUnlessMemory, IsFaultlessSoFar};
ghost use Rattle.fort_sexpr.specs.Progress.{GoesOn};
ghost use Rattle.fort_sexpr.specs.Reading.{HasRead, HasReadFront, HasRoom, KeepsRoom, IsSameWalk, CountsMore, IsAdded};

use crate::arena::{Arena, FormNode, ListNode};
use crate::fault::SFault;
use crate::scan::{behind_line, end_of_word, is_word_byte};
use crate::text::Forms;
use crate::token::{DEEPEST, Token, token_of};
use std::alloc::{AllocError, Global};

/// What has been read of a text so far.
#[derive(Drop)]
pub(crate) struct TextWalk {
    /// The lists that are open, the outermost first.
    pub open: Vec<FormNode>,
    /// All lists, in the order in which they open; where an open one ends isn't known yet.
    pub lists: Vec<ListNode>,
    /// How many forms are in no list, but for one that is open.
    pub count: u32,
}

impl TextWalk {
    /// Nothing of a text is read.
    pub(crate) fn new(alloc: Global) -> TextWalk
        ensures { (bytes : List ℕ) → HasRead bytes result 0 }
    {
        TextWalk {
            open: Vec::new(alloc),
            lists: Vec::new(alloc),
            count: 0,
        }
    }

    /// Room for so many more lists, and for as many open ones as may be.
    pub(crate) fn reserve(&mut self, count: usize) -> Result<(), AllocError>
        ensures same { IsSameWalk self.old self.new }
        ensures open { OnOk result (DEEPEST ≤ vec_capacity self.new.open) }
        ensures lists { OnOk result (vec_len self.new.lists + count ≤ vec_capacity self.new.lists) }
    {
        let deeper = DEEPEST.saturating_sub(self.open.len());
        self.open.reserve(deeper)?;
        self.lists.reserve(count)
    }

    /// Reads on to the end of the bytes, or to where the word or comment begins that goes on there. The one at `at`
    /// goes on at `seen`.
    pub(crate) fn go_on(&mut self, bytes: &[u8], at: usize, seen: usize) -> Result<usize, SFault>
        requires few { length bytes.now < 2 ^ 32 }
        requires read { HasReadFront bytes.now self.old at }
        requires seen { GoesOn bytes.now at seen }
        ensures read { IfOk result (HasReadFront bytes.now self.new) }
        ensures seen { IfOk result (λ at. GoesOn bytes.now at (length bytes.now)) }
        ensures fault { IfErr result (IsFaultOfFrontUnlessMemory bytes.now) }
        ensures memory { IsErrOf result Memory → IsFaultlessSoFar bytes.now }
        ensures room { IsErrOf result Memory → HasRoom bytes.now self.old → ⊥ }
    {
        let mut at = at;
        let mut seen = seen;
        while at < bytes.len() {
            match self.step(bytes, at, seen)? {
                Some(next) => {
                    at = next;
                    seen = next;
                }
                None => return Ok(at),
            }
        }
        Ok(at)
    }

    /// Reads what begins at an offset, and answers where it ends, unless it goes on at the end of the bytes.
    fn step(&mut self, bytes: &[u8], at: usize, seen: usize) -> Result<Option<usize>, SFault>
        requires few { length bytes.now < 2 ^ 32 }
        requires within { at < length bytes.now }
        requires read { HasReadFront bytes.now self.old at }
        requires seen { GoesOn bytes.now at seen }
        ensures further { IfOk result (λ next. IfSome next (λ n. at < n)) }
        ensures read { IfOk result (λ next. IfSome next (HasReadFront bytes.now self.new)) }
        ensures none { IfOk result (λ next. IfNone next
            (HasReadFront bytes.now self.new at × GoesOn bytes.now at (length bytes.now))) }
        ensures fault { IfErr result (IsFaultOfFrontUnlessMemory bytes.now) }
        ensures memory { IsErrOf result Memory → IsFaultlessBelow bytes.now (at + 1) }
        ensures full { IsErrOf result Memory → HasRoom bytes.now self.old → ⊥ }
        ensures room { KeepsRoom self.old self.new }
    {
        match token_of(bytes[at], at, self.open.len())? {
            Token::Blank => Ok(Some(at + 1)),
            Token::Comment => Ok(behind_line(bytes, seen)),
            Token::Word => {
                let to = end_of_word(bytes, seen);
                if to == bytes.len() {
                    return Ok(None);
                }
                self.add_form();
                Ok(Some(to))
            }
            Token::Open => {
                self.open_list(bytes, at)?;
                Ok(Some(at + 1))
            }
            Token::Close => {
                self.close_list(bytes, at);
                Ok(Some(at + 1))
            }
        }
    }

    /// One more form of the innermost open list, or of the text where none is open.
    fn add_form(&mut self)
        requires { CountsMore (reverse self.old.open.items) self.old.lists.items self.old.count }
        ensures added { IsAdded self.old self.new }
        ensures room { KeepsRoom self.old self.new }
    {
        match self.open.last() {
            Some(list) => self.lists[list.list as usize].count += 1,
            None => self.count += 1,
        }
    }

    fn open_list(&mut self, bytes: &[u8], at: usize) -> Result<(), AllocError>
        requires few { length bytes.now < 2 ^ 32 }
        requires within { at < length bytes.now }
        requires read { HasReadFront bytes.now self.old at }
        requires opens { slice_index bytes.now at ≡ 40 }
        requires shallow { length self.old.open.items < DEEPEST }
        ensures read { OnOk result (HasReadFront bytes.now self.new (at + 1)) }
        ensures full { OnErr result (HasRoom bytes.now self.old → ⊥) }
        ensures room { KeepsRoom self.old self.new }
    {
        self.open.push(FormNode {
            from: at as u32,
            list: self.lists.len() as u32,
        })?;
        self.lists.push(ListNode {
            to: 0,
            count: 0,
            behind: 0,
        })?;
        Ok(())
    }

    fn close_list(&mut self, bytes: &[u8], at: usize)
        requires few { length bytes.now < 2 ^ 32 }
        requires within { at < length bytes.now }
        requires read { HasReadFront bytes.now self.old at }
        requires closes { slice_index bytes.now at ≡ 41 }
        requires inside { 0 < length self.old.open.items }
        ensures read { HasReadFront bytes.now self.new (at + 1) }
        ensures room { KeepsRoom self.old self.new }
    {
        let Some(node) = self.open.pop() else {
            unreachable!()
        };
        let behind = self.lists.len() as u32;
        let list = &mut self.lists[node.list as usize];
        list.to = (at + 1) as u32;
        list.behind = behind;
        self.add_form();
    }

    /// The end of a text, up to which goes what begins at this offset.
    fn end(&mut self, bytes: &[u8], at: usize)
        requires few { length bytes.now < 2 ^ 32 }
        requires read { HasReadFront bytes.now self.old at }
        requires seen { GoesOn bytes.now at (length bytes.now) }
        ensures { HasRead bytes.now self.new (length bytes.now) }
    {
        if at < bytes.len() && is_word_byte(bytes[at]) {
            self.add_form();
        }
    }

    /// The forms of a text that is read to its end, up to which goes what begins at this offset.
    pub(crate) fn finish(
        mut self,
        alloc: Global,
        bytes: Vec<u8>,
        at: usize,
    ) -> Result<Forms, SFault>
        requires few { length bytes.items < 2 ^ 32 }
        requires read { HasReadFront bytes.items self at }
        requires seen { GoesOn bytes.items at (length bytes.items) }
        ensures bytes { IfOk result (λ text. text.bytes ≡ bytes.items) }
        ensures forms { IfOk result (λ text. AreFormsOf bytes.items text.forms) }
        ensures fault { IfErr result (IsFirstFaultUnlessMemory bytes.items) }
        ensures memory { IsErrOf result Memory → IsFaultlessSoFar bytes.items }
    {
        self.end(bytes.as_slice(), at);
        if let Some(list) = self.open.pop() {
            return Err(SFault::Unclosed(list.from as usize));
        }
        // The room that the table grew into goes back before anything is made of the forms.
        self.lists.shrink_to_fit();
        let arena = Arena {
            bytes,
            lists: self.lists,
        };
        Ok(Forms::of(alloc, arena, self.count)?)
    }
}
