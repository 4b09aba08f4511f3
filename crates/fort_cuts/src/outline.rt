//! The outline of a text: where each of its forms stands.
use fort_sexpr::{Form, FormList, Forms, SFault, Span};
use std::alloc::{AllocError, Global};

/// What a text comes to: where its forms stand, each list before the forms in it, or the text's fault.
pub type Outline = Result<Vec<Span>, SFault>;

/// The outline of a text that was read.
pub fn outline_of(alloc: Global, text: Result<Forms, SFault>) -> Result<Outline, AllocError> {
    let forms = match text {
        Ok(forms) => forms,
        Err(SFault::Memory) => return Err(AllocError),
        Err(fault) => return Ok(Err(fault)),
    };
    let mut spans = Vec::new(alloc);
    for i in 0..forms.len() {
        push_form(alloc, &mut spans, &forms.form(i))?;
    }
    Ok(Ok(spans))
}

/// Where a form stands, and the forms in it.
fn push_form(alloc: Global, spans: &mut Vec<Span>, form: &Form) -> Result<(), AllocError> {
    let mut lists: Vec<FormList> = Vec::new(alloc);
    push_one(spans, &mut lists, form)?;
    for _ in 0..u64::MAX {
        let Some(list) = lists.pop() else {
            break;
        };
        if let Some((first, rest)) = list.split_first() {
            lists.push(rest)?;
            push_one(spans, &mut lists, &first)?;
        }
    }
    Ok(())
}

/// Where a form stands, and its forms for later.
fn push_one<'a>(
    spans: &mut Vec<Span>,
    lists: &mut Vec<FormList<'a>>,
    form: &Form<'a>,
) -> Result<(), AllocError> {
    spans.push(form.span())?;
    if let Some(list) = form.elements() {
        lists.push(list)?;
    }
    Ok(())
}
