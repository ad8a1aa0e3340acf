//! The pages of one thread, as a map.
ghost use Rattle.std.specs.Prelude.{◌≡◌, IfOk, OnOk, OnErr};
ghost use Rattle.std.specs.FinMap as map;
ghost use Rattle.k42_kinds.specs.Pages.{dirty_count, all_cleaned, written};
ghost use Rattle.k42_kinds.specs.Objects.{WritesNew, pages_after, pages_reply, found_text};

use crate::operation::{Op, Reply};
use crate::page::Page;
use k42_memory::Memory;
use std::alloc::Global;
use std::collections::{BTreeMap, btree_map};
use std::marker::Model;

/// Which pages were written, seen as a finite map from page numbers to text and mark.
#[derive(Debug, Drop)]
pub struct PagesState {
    written: BTreeMap<u16, Page>,
}

impl Model for PagesState {
    ghost use Rattle.std.specs.FinMap as map;
    ghost use Rattle.std.specs.Ordering.{nat_cmp};
    ghost use Rattle.std.specs.Coded.{coded_ℕ};
    ghost use Rattle.k42_kinds.specs.declared.page.Page.{Page};
    ghost use Rattle.k42_kinds.specs.Pages.{coded_page};

    ghost Value = { map.FinMap nat_cmp Page };

    ghost coded = { map.code coded_ℕ coded_page };

    ghost view = { λ pages. map.from_entries pages.written.entries };
}

impl PagesState {
    /// No page was ever written.
    pub fn new(alloc: Global) -> Self
        ensures { result ≡ map.empty }
    {
        PagesState {
            written: BTreeMap::new(alloc),
        }
    }

    /// The pages that were written, in the order of their numbers.
    pub fn iter(&self) -> btree_map::Iter<'_, u16, Page>
        ensures { result ≡ map.entries self.now }
    {
        self.written.iter()
    }

    /// The page, where it was written.
    pub fn get(&self, number: u16) -> Option<Page>
        ensures { result ≡ map.get self.now number }
    {
        self.written.get(&number).copied()
    }

    /// Puts the page in place of what was written there. Only a page that was never written needs
    /// memory.
    pub fn insert(&mut self, number: u16, page: &Page) -> Result<(), Memory>
        ensures ok { OnOk result (self.new ≡ map.insert self.old number page.now) }
        ensures memory { OnErr result (self.new ≡ self.old) }
        ensures needed { OnErr result (map.get self.old number ≡ None) }
    {
        self.written.insert(number, *page)?;
        Ok(())
    }

    /// How many pages are dirty.
    pub fn dirty(&self) -> usize
        ensures { result ≡ dirty_count self.now }
    {
        self.written.values().filter(|page| page.dirty).count()
    }

    /// Takes the marks off all pages, in one pass.
    pub fn clean(&mut self)
        ensures { self.new ≡ all_cleaned self.old }
    {
        self.written.retain(|_, page| {
            page.dirty = false;
            true
        });
    }
}

fn reply_with(found: Option<Page>) -> Reply
    ensures { result ≡ found_text found }
{
    match found {
        Some(page) => Reply::Text(page.text),
        None => Reply::Zero,
    }
}

/// One operation of the pages. Another kind's operation leaves them, and so does want of memory.
pub fn step_pages(pages: &mut PagesState, op: &Op) -> Result<Reply, Memory>
    ensures replied { IfOk result (λ reply. reply ≡ pages_reply pages.old op.now) }
    ensures moved { OnOk result (pages.new ≡ pages_after pages.old op.now) }
    ensures memory { OnErr result (pages.new ≡ pages.old) }
    ensures needed { OnErr result (WritesNew pages.old op.now) }
{
    match op {
        Op::Write(number, text) => {
            let page = Page {
                text: *text,
                dirty: true,
            };
            pages.insert(*number, &page)?;
            Ok(Reply::Done)
        }
        Op::Read(number) => Ok(reply_with(pages.get(*number))),
        Op::Dirty => Ok(Reply::Number(pages.dirty() as u64)),
        Op::Clean => {
            let dirty = pages.dirty() as u64;
            pages.clean();
            Ok(Reply::Number(dirty))
        }
        _ => Ok(Reply::Gone),
    }
}
