//! The states of one presence in classes, by what is asked of their labels.
ghost use Rattle.std.specs.Prelude.{◌≡◌, ℕ, ◌+◌, ◌<◌, ◌≤◌, ◌^◌, ◌↔◌, List, [], length, slice_index, slice_index_or, IsTrue, IfOk, OnOk};
ghost use Rattle.fort_tables.specs.Tuples.{TupleSymbol};
ghost use Rattle.fort_tables.specs.Labels.{first_word};
ghost use Rattle.fort_views.specs.Views.{IsAsked, IsViewOf, HasSameSight, GivesClass, view_states, leader_in};

use crate::key_set::KeySet;
use fort_label_keys::LabelKeys;
use fort_labels::Rows;
use std::alloc::{AllocError, Global};

/// Of the states before one, those of a presence, in classes by their key: a class has the number of its key.
#[derive(Drop)]
pub struct View {
    pub presence: u32,
    /// What is asked of their labels.
    pub words: Vec<u64>,
    pub keys: KeySet,
    /// The least state of each class, ascending.
    pub leaders: Vec<u32>,
    /// The class of each state, in the order of the states.
    pub classes: Vec<u32>,
    pub until: u32,
}

/// Whether the label's first word is this presence.
fn has_presence(label: &[u64], presence: u32) -> bool
    ensures { IsTrue result ↔ (first_word label.now ≡ presence) }
{
    match label.first() {
        Some(word) => *word == u64::from(presence),
        None => presence == 0,
    }
}

impl View {
    pub fn new(alloc: Global, presence: u32, words: Vec<u64>) -> View
        ensures presence { result.presence ≡ presence }
        ensures words { result.words.items ≡ words.items }
        ensures until { result.until ≡ 0 }
        ensures keys { result.keys ≡ [] }
        ensures leaders { result.leaders.items ≡ [] }
        ensures classes { result.classes.items ≡ [] }
    {
        View {
            presence,
            words,
            keys: KeySet::new(alloc),
            leaders: Vec::new(alloc),
            classes: Vec::new(alloc),
            until: 0,
        }
    }

    /// The class with this key; where there is none, the state opens one.
    fn class_with(&mut self, key: &Vec<u64>, state: u32) -> Result<u32, AllocError>
        requires one { length self.old.keys ≡ length self.old.leaders.items }
        requires few { length self.old.leaders.items ≤ state }
        ensures gives { IfOk result (GivesClass self.old self.new key.now.items state) }
        ensures sight { HasSameSight self.old self.new }
        ensures until { self.new.until ≡ self.old.until }
        ensures classes { self.new.classes.items ≡ self.old.classes.items }
    {
        match self.keys.find(key.as_slice()) {
            Some(class) => Ok(class as u32),
            None => {
                let class = self.leaders.len() as u32;
                self.keys.push(key.clone()?)?;
                self.leaders.push(state)?;
                Ok(class)
            }
        }
    }

    /// Takes up the next state; the list is for its key alone.
    fn take_up_next<K: LabelKeys>(
        &mut self,
        keys: &K,
        rows: &Rows,
        key: &mut Vec<u64>,
    ) -> Result<(), AllocError>
        requires asked { IsAsked (K.view keys.now) self.old }
        requires width { rows.now.width ≡ K.word_count keys.now }
        requires numbers { length rows.now.labels < 2 ^ 32 }
        requires within { self.old.until < length rows.now.labels }
        requires known { IsViewOf (K.key keys.now) rows.now.labels self.old }
        ensures known { OnOk result (IsViewOf (K.key keys.now) rows.now.labels self.new) }
        ensures until { OnOk result (self.new.until ≡ self.old.until + 1) }
        ensures sight { HasSameSight self.old self.new }
    {
        // its clause says that each label has this width
        let _width = rows.width();
        let state = self.until;
        let label = rows.label(state);
        if !has_presence(label, self.presence) {
            self.until = state + 1;
            return Ok(());
        }
        key.clear();
        keys.write_key(self.words.as_slice(), label, key)?;
        let class = self.class_with(key, state)?;
        self.classes.push(class)?;
        self.until = state + 1;
        Ok(())
    }

    /// Takes up the states before this one; the list is for their keys alone.
    pub fn take_up<K: LabelKeys>(
        &mut self,
        keys: &K,
        rows: &Rows,
        until: u32,
        key: &mut Vec<u64>,
    ) -> Result<(), AllocError>
        requires asked { IsAsked (K.view keys.now) self.old }
        requires width { rows.now.width ≡ K.word_count keys.now }
        requires numbers { length rows.now.labels < 2 ^ 32 }
        requires within { until ≤ length rows.now.labels }
        requires later { self.old.until ≤ until }
        requires known { IsViewOf (K.key keys.now) rows.now.labels self.old }
        ensures known { OnOk result (IsViewOf (K.key keys.now) rows.now.labels self.new) }
        ensures until { OnOk result (self.new.until ≡ until) }
        ensures sight { HasSameSight self.old self.new }
    {
        while self.until < until {
            self.take_up_next(keys, rows, key)?;
        }
        Ok(())
    }

    /// The class of a state, by its rank among the states of the presence; the leader of the class is the state's.
    pub fn class_of(&self, rank: usize) -> u32
        requires { rank < length self.now.classes.items }
        ensures is { result ≡ slice_index self.now.classes.items rank }
        ensures leader { (key : List ℕ → List ℕ → List ℕ) (labels : List (List ℕ))
            → IsViewOf key labels self.now
            → slice_index self.now.leaders.items result
            ≡ leader_in key self.now.words.items labels
            (slice_index (view_states labels self.now.presence self.now.until) rank) }
    {
        self.classes[rank]
    }
}
