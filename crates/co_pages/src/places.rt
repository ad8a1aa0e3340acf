//! The pages of one cell, in a vector that is as long as its last page needs.
ghost use Rattle.std.specs.Prelude.{◌≡◌, ◌%◌, ◌^◌, ◌<◌, ◌≤◌, IfOk, OnOk, OnErr, map, option_map};
ghost use Rattle.k42_kinds.specs.Pages.{cleaned};
ghost use Rattle.co_pages.specs.Places as kept;
ghost use Rattle.co_pages.specs.SpreadRows.{cell_put_in};

use k42_kinds::{Page, PagesState};
use k42_memory::Memory;
use std::alloc::Global;
use std::marker::Model;

/// The pages of one cell among several. Page i lives in cell i modulo the number of cells, in the
/// place that the quotient names. There are as many places as the last page needs.
#[derive(Debug, Drop)]
pub struct Places {
    procs: u32,
    cell: u32,
    places: Vec<Option<Page>>,
}

impl Model for Places {
    ghost use Rattle.std.specs.Prelude.{◌<◌};
    ghost use Rattle.co_pages.specs.Places.{CellPlaces, coded_places, HasShortNumbers};

    ghost Value = { CellPlaces };

    ghost coded = { coded_places };

    ghost view = { λ here. record {
      procs = here.procs;
      cell = here.cell;
      places = here.places.items;
    } };

    ghost invariant = { λ here. (here.cell < here.procs) × HasShortNumbers here.procs here.cell here.places.items };
}

fn has_dirty(place: &Option<Page>) -> bool
    ensures { result ≡ kept.has_dirty place.now }
{
    match place {
        Some(page) => page.dirty,
        None => false,
    }
}

fn without_mark(place: &Option<Page>) -> Option<Page>
    ensures { result ≡ option_map cleaned place.now }
{
    match place {
        Some(page) => Some(Page {
            text: page.text,
            dirty: false,
        }),
        None => None,
    }
}

/// Takes the marks off all places.
fn clean(places: &mut [Option<Page>])
    ensures { places.new ≡ map (option_map cleaned) places.old }
{
    for place in places.iter_mut() {
        *place = without_mark(place);
    }
}

/// What is in the place, if it is there at all.
fn get(places: &[Option<Page>], place: usize) -> Option<Page>
    ensures { result ≡ kept.in_place places.now place }
{
    if place < places.len() {
        places[place]
    } else {
        None
    }
}

/// Puts the page into the place, and makes it where it is not there.
fn put(places: &mut Vec<Option<Page>>, place: usize, page: &Page) -> Result<(), Memory>
    requires { place < 2 ^ 16 }
    ensures ok { OnOk result (places.new.items ≡ kept.with_place places.old.items place page.now) }
    ensures memory { OnErr result (places.new.items ≡ places.old.items) }
{
    let many = places.len().max(place + 1);
    places.resize(many, None)?;
    places[place] = Some(*page);
    Ok(())
}

impl Places {
    /// No page was written. It asks for no memory yet.
    pub fn new(alloc: Global, cell: u32, procs: u32) -> Self
        requires { cell < procs }
        ensures { result ≡ kept.no_places procs cell }
    {
        Places {
            procs,
            cell,
            places: Vec::new(alloc),
        }
    }

    /// How many cells there are.
    pub(crate) fn procs(&self) -> u32
        ensures { result ≡ self.now.procs }
    {
        self.procs
    }

    /// The page, where it was written.
    pub(crate) fn get(&self, number: u16) -> Option<Page>
        ensures { result ≡ kept.page_in self.now number }
    {
        let place = u32::from(number) / self.procs;
        get(&self.places, place as usize)
    }

    /// Puts the page in place of what was written there.
    pub(crate) fn insert(&mut self, number: u16, page: &Page) -> Result<(), Memory>
        requires { number % self.old.procs ≡ self.old.cell }
        ensures ok { OnOk result (self.new ≡ kept.with_page self.old number page.now) }
        ensures memory { OnErr result (self.new ≡ self.old) }
    {
        let place = u32::from(number) / self.procs;
        put(&mut self.places, place as usize, page)
    }

    /// How many pages are dirty.
    pub(crate) fn dirty(&self) -> usize
        ensures counted { result ≡ kept.dirty_in self.now }
        ensures few { result ≤ 2 ^ 16 }
    {
        self.places.iter().filter(|place| has_dirty(place)).count()
    }

    /// Takes the marks off all pages.
    pub(crate) fn clean(&mut self)
        ensures { self.new ≡ kept.all_clean self.old }
    {
        clean(&mut self.places);
    }

    /// Puts the pages into a map.
    pub fn put_into(&self, pages: PagesState) -> Result<PagesState, Memory>
        ensures { IfOk result (λ all. all ≡ cell_put_in pages self.now) }
    {
        let mut all = pages;
        let mut number = u64::from(self.cell);
        for place in &self.places {
            if let Some(page) = place {
                all.insert(number as u16, page)?;
            }
            number += u64::from(self.procs);
        }
        Ok(all)
    }
}
