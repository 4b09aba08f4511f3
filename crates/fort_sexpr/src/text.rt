//! A text that was read.
ghost use Rattle.std.specs.Prelude.{◌≡◌, ◌<◌, ◌^◌, Some, length, IfOk, OnErr};
ghost use Rattle.fort_grammar.specs.Forms.{AreFormsOf};
ghost use Rattle.fort_sexpr.specs.FormView.{form_at, form_count};
ghost use Rattle.fort_sexpr.specs.Nodes.{nodes_of, text_forms};

use crate::arena::{Arena, FormNode};
use crate::form::Form;
use crate::scan::next_token;
use std::alloc::{AllocError, Global};
use std::marker::Model;

/// A text without fault and its forms, in order.
#[derive(Drop)]
pub struct Forms {
    pub(crate) arena: Arena,
    pub(crate) top: Vec<FormNode>,
}

impl Model for Forms {
    ghost use Rattle.fort_sexpr.specs.Texts.{FormsOfText, forms_of_text_code};

    ghost Value = { FormsOfText };

    ghost coded = { forms_of_text_code };

    ghost use Rattle.fort_sexpr.specs.Nodes.{text_forms, AreTextForms};

    ghost view = { λ a. record {
      bytes = a.arena.bytes.items;
      forms = text_forms a.arena.bytes.items;
    } };

    ghost invariant = { λ a. AreTextForms a.arena.bytes.items a.top.items };
}

impl Forms {
    /// The forms of a text without fault, of which so many are in no list.
    pub(crate) fn of(alloc: Global, arena: Arena, count: u32) -> Result<Forms, AllocError>
        requires forms { AreFormsOf arena.bytes.items (text_forms arena.bytes.items) }
        requires count { count ≡ form_count (text_forms arena.bytes.items) }
        ensures bytes { IfOk result (λ text. text.bytes ≡ arena.bytes.items) }
        ensures some { OnErr result (0 < length arena.bytes.items) }
    {
        let top = nodes(alloc, &arena, count)?;
        Ok(Forms { arena, top })
    }

    /// The number of forms.
    pub fn len(&self) -> usize
        ensures count { result ≡ form_count self.now.forms }
        ensures lawful { AreFormsOf self.now.bytes self.now.forms }
        ensures few { length self.now.bytes < 2 ^ 32 }
    {
        self.top.len()
    }

    /// The form of this number.
    pub fn form(&self, i: usize) -> Form<'_>
        requires { i < form_count self.now.forms }
        ensures form { form_at self.now.forms i ≡ Some result.form }
        ensures bytes { result.bytes ≡ self.now.bytes }
    {
        Form {
            arena: &self.arena,
            node: self.top[i],
        }
    }

    /// The text.
    pub fn bytes(&self) -> &[u8]
        ensures { result.now ≡ self.now.bytes }
    {
        self.arena.bytes.as_slice()
    }
}

/// The nodes of the forms of a text that are in no list, of which there are so many.
fn nodes(alloc: Global, arena: &Arena, count: u32) -> Result<Vec<FormNode>, AllocError>
    requires forms { AreFormsOf arena.now.bytes.items (text_forms arena.now.bytes.items) }
    requires count { count ≡ form_count (text_forms arena.now.bytes.items) }
    ensures nodes { let bytes = arena.now.bytes.items in
        IfOk result (λ top. top.items ≡ nodes_of bytes (text_forms bytes)) }
    ensures some { OnErr result (0 < count) }
{
    let mut top = Vec::with_capacity(alloc, count as usize)?;
    let mut at = 0u32;
    let mut list = 0u32;
    for _ in 0..count {
        let from = next_token(arena.bytes.as_slice(), at as usize) as u32;
        let node = FormNode { from, list };
        top.push_reserved(node);
        (at, list) = Form { arena, node }.behind();
    }
    Ok(top)
}
