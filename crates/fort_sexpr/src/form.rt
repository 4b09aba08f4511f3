//! A form of a text, and the forms of a list.
ghost use Rattle.std.specs.Prelude.{◌≡◌, ℕ, ◌<◌, ◌≤◌, ◌↔◌, [], ◌∷◌, length, List, Some, None, IsTrue, IfSome, IfNone, slice_get, slice_range};
ghost use Rattle.fort_grammar.specs.Forms as grammar;
ghost use Rattle.fort_grammar.specs.Declarations.{word_of, elements_of, IsHeaded};
ghost use Rattle.fort_sexpr.specs.FormView.{is_list, span_of, word_ahead, IsFirstWord, IsDigitWord, IsWritten};
ghost use Rattle.fort_sexpr.specs.Nodes.{opens_before};

use crate::arena::{Arena, FormNode};
use crate::digits::{Digits, digits_ahead};
use crate::scan::{end_of_word, is_ahead, next_token};
use std::marker::Model;

/// Where a form stands in its text: from an offset to one behind its last byte.
#[derive(Clone, Copy, Debug, PartialEq, Eq)]
pub struct Span {
    pub from: usize,
    pub to: usize,
}

/// A form of a text: a word, or a list of forms, whose span has both its parentheses.
#[derive(Drop)]
pub struct Form<'a> {
    pub(crate) arena: &'a Arena,
    pub(crate) node: FormNode,
}

impl<'a> Model for Form<'a> {
    ghost use Rattle.fort_sexpr.specs.Texts.{FormOfText, form_of_text_code};

    ghost Value = { FormOfText };

    ghost coded = { form_of_text_code };

    ghost use Rattle.fort_sexpr.specs.Found.{form_from};
    ghost use Rattle.fort_sexpr.specs.Nodes.{Stands};

    ghost view = { λ a. record {
      bytes = a.arena.now.bytes.items;
      form = form_from a.arena.now.bytes.items a.node.from;
    } };

    ghost invariant = { λ a. Stands a.arena.now.bytes.items a.node };
}

/// The forms of a list, or the last ones of these.
#[derive(Drop)]
pub struct FormList<'a> {
    arena: &'a Arena,
    /// An offset between the last form before them and the first of them.
    at: u32,
    /// How many lists open before this offset.
    list: u32,
    /// How many forms they are.
    count: u32,
}

impl<'a> Model for FormList<'a> {
    ghost use Rattle.fort_sexpr.specs.Texts.{FormListOfText, form_list_of_text_code};

    ghost Value = { FormListOfText };

    ghost coded = { form_list_of_text_code };

    ghost use Rattle.fort_sexpr.specs.Nodes.{forms_on, StandOn};

    ghost view = { λ a. record {
      bytes = a.arena.now.bytes.items;
      forms = forms_on a.arena.now.bytes.items a.at;
    } };

    ghost invariant = { λ a. StandOn a.arena.now.bytes.items a.at a.list a.count };
}

impl<'a> FormList<'a> {
    pub fn len(&self) -> usize
        ensures { result ≡ length self.now.forms }
    {
        self.count as usize
    }

    pub fn is_empty(&self) -> bool
        ensures { IsTrue result ↔ (self.now.forms ≡ []) }
    {
        self.count == 0
    }

    /// The first form, and those behind it.
    pub fn split_first(&self) -> Option<(Form<'a>, FormList<'a>)>
        ensures some { IfSome result (λ p. self.now.forms ≡ p.0.form ∷ p.1.forms) }
        ensures bytes { IfSome result (λ p.
            (p.0.bytes ≡ self.now.bytes) × (p.1.bytes ≡ self.now.bytes)) }
        ensures none { IfNone result (self.now.forms ≡ []) }
    {
        if self.count == 0 {
            return None;
        }
        let arena = self.arena;
        let from = next_token(arena.bytes.as_slice(), self.at as usize);
        let form = Form {
            arena,
            node: FormNode {
                from: from as u32,
                list: self.list,
            },
        };
        let (at, list) = form.behind();
        let rest = FormList {
            arena,
            at,
            list,
            count: self.count - 1,
        };
        Some((form, rest))
    }

    /// The first form, where it is a word of digits that write a number of 32 bits, and those behind
    /// it. Its bytes are read once.
    pub fn split_digits(&self) -> Option<(Digits<'a>, FormList<'a>)>
        ensures first { IfSome result (λ p.
            IsFirstWord self.now.bytes self.now.forms p.0.text.now p.1.forms) }
        ensures written { IfSome result (λ p. IsWritten p.0) }
        ensures bytes { IfSome result (λ p. p.1.bytes ≡ self.now.bytes) }
        ensures none { IfNone result ((word : List ℕ) (rest : List grammar.Form)
            → IsFirstWord self.now.bytes self.now.forms word rest → IsDigitWord word → ⊥) }
    {
        if self.count == 0 {
            return None;
        }
        let arena = self.arena;
        let from = next_token(arena.bytes.as_slice(), self.at as usize);
        let digits = digits_ahead(&arena.bytes[from..])?;
        if digits.text.is_empty() {
            return None;
        }
        let rest = FormList {
            arena,
            at: (from + digits.text.len()) as u32,
            list: self.list,
            count: self.count - 1,
        };
        Some((digits, rest))
    }

    /// The form of this number, found by reading all before it.
    pub fn get(&self, i: usize) -> Form<'a>
        requires { i < length self.now.forms }
        ensures form { slice_get self.now.forms i ≡ Some result.form }
        ensures bytes { result.bytes ≡ self.now.bytes }
    {
        let Some((mut form, mut rest)) = self.split_first() else {
            unreachable!()
        };
        for _ in 0..i {
            let Some((next, behind)) = rest.split_first() else {
                unreachable!()
            };
            form = next;
            rest = behind;
        }
        form
    }
}

impl<'a> Form<'a> {
    pub fn span(&self) -> Span
        ensures { result ≡ span_of self.now.form }
    {
        Span {
            from: self.node.from as usize,
            to: self.end(),
        }
    }

    /// The offset behind its last byte.
    fn end(&self) -> usize
        ensures end { result ≡ (span_of self.now.form).to }
        ensures after { (span_of self.now.form).from ≤ result }
        ensures within { result ≤ length self.now.bytes }
    {
        if self.is_list() {
            return self.arena.lists[self.node.list as usize].to as usize;
        }
        end_of_word(self.arena.bytes.as_slice(), self.node.from as usize)
    }

    /// The offset behind it, and how many lists open before that.
    pub(crate) fn behind(&self) -> (u32, u32)
        ensures end { result.0 ≡ (span_of self.now.form).to }
        ensures number { result.1 ≡ opens_before self.now.bytes (span_of self.now.form).to }
    {
        if self.is_list() {
            let list = self.arena.lists[self.node.list as usize];
            return (list.to, list.behind);
        }
        (self.end() as u32, self.node.list)
    }

    /// Its bytes.
    pub fn text(&self) -> &'a [u8]
        ensures { result.now ≡
            slice_range self.now.bytes (span_of self.now.form).from (span_of self.now.form).to }
    {
        &self.arena.bytes[self.node.from as usize..self.end()]
    }

    pub fn is_list(&self) -> bool
        ensures { result ≡ is_list self.now.form }
    {
        self.arena.bytes[self.node.from as usize] == b'('
    }

    /// The text of a word.
    pub fn word(&self) -> Option<&'a [u8]>
        ensures some { IfSome result (λ w. word_of self.now.bytes self.now.form ≡ Some w.now) }
        ensures none { IfNone result (word_of self.now.bytes self.now.form ≡ None) }
    {
        if self.is_list() {
            return None;
        }
        Some(self.text())
    }

    /// The forms of a list.
    pub fn elements(&self) -> Option<FormList<'a>>
        ensures some { IfSome result (λ list. elements_of self.now.form ≡ Some list.forms) }
        ensures bytes { IfSome result (λ list. list.bytes ≡ self.now.bytes) }
        ensures none { IfNone result (elements_of self.now.form ≡ None) }
    {
        if !self.is_list() {
            return None;
        }
        let list = self.arena.lists[self.node.list as usize];
        Some(FormList {
            arena: self.arena,
            at: self.node.from + 1,
            list: self.node.list + 1,
            count: list.count,
        })
    }

    /// The bytes of the text from a word's first one on.
    pub fn word_on(&self) -> Option<&'a [u8]>
        ensures some { IfSome result (λ bytes.
            word_of self.now.bytes self.now.form ≡ Some (word_ahead bytes.now)) }
        ensures none { IfNone result (word_of self.now.bytes self.now.form ≡ None) }
    {
        if self.is_list() {
            return None;
        }
        Some(&self.arena.bytes[self.node.from as usize..])
    }

    /// Whether it is this word.
    pub fn is_word(&self, text: &[u8]) -> bool
        ensures { IsTrue result ↔ (word_of self.now.bytes self.now.form ≡ Some text.now) }
    {
        match self.word_on() {
            Some(bytes) => is_ahead(bytes, text),
            None => false,
        }
    }

    /// Whether it is a list that begins with this word.
    pub fn is_headed(&self, head: &[u8]) -> bool
        ensures { IsTrue result ↔ IsHeaded self.now.bytes head.now self.now.form }
    {
        match self.elements() {
            Some(list) => !list.is_empty() && list.get(0).is_word(head),
            None => false,
        }
    }

    /// The forms of a list of two.
    pub fn two(&self) -> Option<(Form<'a>, Form<'a>)>
        ensures some { IfSome result (λ p.
            elements_of self.now.form ≡ Some (p.0.form ∷ p.1.form ∷ [])) }
        ensures bytes { IfSome result (λ p.
            (p.0.bytes ≡ self.now.bytes) × (p.1.bytes ≡ self.now.bytes)) }
        ensures none { IfNone result ((f g : grammar.Form) →
            elements_of self.now.form ≡ Some (f ∷ g ∷ []) → ⊥) }
    {
        let list = self.elements()?;
        if list.len() != 2 {
            return None;
        }
        let (first, rest) = list.split_first()?;
        let (second, _none) = rest.split_first()?;
        Some((first, second))
    }

    /// The forms of a list of three.
    pub fn three(&self) -> Option<(Form<'a>, Form<'a>, Form<'a>)>
        ensures some { IfSome result (λ p.
            elements_of self.now.form ≡ Some (p.0.form ∷ p.1.form ∷ p.2.form ∷ [])) }
        ensures bytes { IfSome result (λ p. (p.0.bytes ≡ self.now.bytes) ×
            (p.1.bytes ≡ self.now.bytes) × (p.2.bytes ≡ self.now.bytes)) }
        ensures none { IfNone result ((f g h : grammar.Form) →
            elements_of self.now.form ≡ Some (f ∷ g ∷ h ∷ []) → ⊥) }
    {
        let list = self.elements()?;
        if list.len() != 3 {
            return None;
        }
        let (first, rest) = list.split_first()?;
        let (second, rest) = rest.split_first()?;
        let (third, _none) = rest.split_first()?;
        Some((first, second, third))
    }
}
