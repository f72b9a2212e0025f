//! The places of points as the lists find them that a sweep keeps, which no command asks.

ghost use Rattle.std.specs.Prelude.{◌≡◌, ◌<◌};

use crate::making::cut;
use crate::page::Page;
use crate::stage::Stage;
use loc_edges::EdgeTable;
use loc_geom::{Meeting, Point};
use loc_maps::read_layer_file;
use loc_place::{Deep, Locator, Place};
use loc_scan::VecIndex;
use loc_spec_text::{Form, Scale};
use loc_sweep::{SweepFault, sweep};
use loc_top::Steps;
use loc_wkt::read_point;
use std::alloc::Global;
use std::marker::Brand;
use std::sync::ledger::{Blank, Ledger};

// The plain table of the layer of a file, if it has one: no edge is cut.
fn table_of(stage: &mut Stage, name: &str) -> Option<EdgeTable> {
    let files = &mut stage.left.shelf;
    match read_layer_file(stage.alloc, files, name, Form::Lines, Scale::new(0)) {
        Ok(layer) => EdgeTable::make(stage.alloc, &layer).ok(),
        Err(_) => None,
    }
}

// The place that an index finds for a point of its table.
fn found<I: Locator, L: Ledger>(
    index: &I,
    table: &EdgeTable,
    p: Point,
    blank: Blank,
) -> Result<Place, Deep>
    requires stands { I.stands index.now table.now }
    requires name { blank.name ≡ L.name }
    requires parts { blank.parts ≡ L.parts }
    requires some { 0 < L.parts }
{
    let views = table.views::<L>();
    index.locate(&views, p, &mut Steps::<L>::new(blank))
}

// Prints a place, if one was found.
fn show(page: &mut Page, place: Result<Place, Deep>) {
    let (how, number) = match place {
        Ok(Place::Corner(corner)) => ("on corner ", corner),
        Ok(Place::Border(edge)) => ("on edge ", edge),
        Ok(Place::Area(Some(edge))) => ("above edge ", edge),
        Ok(Place::Area(None)) => return page.put("above no edge\n"),
        Err(_) => return page.put("too deep\n"),
    };
    page.put_numbers(&[(how, number as u64)], "\n");
}

// Prints the two edges that a sweep shows, and how they meet.
fn show_conflict(page: &mut Page, a: u32, b: u32, meeting: Meeting) {
    let how = match meeting {
        Meeting::Apart => " are apart\n",
        Meeting::Touch => " touch\n",
        Meeting::Cross => " cross\n",
    };
    page.put_numbers(&[("edges ", a as u64), (" and ", b as u64)], how);
}

// Prints the place of a point by the lists that a sweep of a table keeps, or the two edges that it shows.
fn show_place(page: &mut Page, alloc: Global, table: &EdgeTable, p: Point) {
    match sweep(alloc, table, VecIndex::new(alloc)) {
        Ok((index, floors)) => {
            drop(floors);
            table.law();
            show(
                page,
                found::<VecIndex, Brand>(&index, table, p, Blank::new(1)),
            );
        }
        Err(SweepFault::Conflict { a, b, meeting }) => show_conflict(page, a, b, meeting),
        Err(SweepFault::NoMemory) => page.note(true),
    }
}

// Prints the place of a point in the plain table of a layer.
fn show_in(page: &mut Page, stage: &mut Stage, layer: &str, p: Point) {
    match table_of(stage, layer) {
        Some(table) => show_place(page, stage.alloc, &table, p),
        None => page.refuse(),
    }
}

/// `ask place LAYER X Y`: where a point lies in the plain table of a layer.
pub(crate) fn place(page: &mut Page, stage: &mut Stage, rest: &str) {
    let (layer, point) = cut(rest);
    match read_point(point.as_bytes(), 0) {
        Some(p) => show_in(page, stage, layer, p),
        None => page.refuse(),
    }
}
