//! A style is read from the bytes of a document.
ghost use Rattle.std.specs.Prelude.{◌≡◌, ◌≤◌, [], None, length, map, option_map, IfOk};
ghost use Rattle.toml.specs.View.{view};
ghost use Rattle.style_read.specs.declared.fault.StylePart.TheVariants as parts;
ghost use Rattle.style_read.specs.Causes as causes;
ghost use Rattle.style_read.specs.Reading as spec;

use crate::document::read_document;
use crate::fault::{StyleFault, StylePart, StyleWhy};
use crate::part::first_cause;
use crate::selections::{SelectionPart, selections};
use crate::style::{MAX_SELECTIONS, MAX_TABLES, Style};
use crate::table_defs::tables;
use crate::tables::TablePart;
use crate::top::{Top, selections_of, tables_of};
use osm_base::OutOfMemory;
use std::alloc::Global;
use toml::Value;

/// The style that bytes write, or the first cause against them and its part.
#[tactic(auto, unfolding(crate::specs::Reading::reading))]
pub fn read_style(alloc: Global, bytes: &[u8]) -> Result<Style, StyleFault>
    ensures exact { spec.Gives result (spec.reading bytes.now) }
{
    let Some(document) = read_document(alloc, bytes)? else {
        return Err(StyleFault::Bad {
            why: StyleWhy::Toml,
            part: StylePart::Top,
        });
    };
    match fault_of(&document) {
        Some((why, part)) => Err(StyleFault::Bad { why, part }),
        None => Ok(style_of(alloc, &document)?),
    }
}

/// What stands against a document, and in which part.
#[tactic(auto, unfolding(crate::specs::Causes::fault_of), using(crate::proofs::Views::length_over))]
fn fault_of(document: &Value) -> Option<(StyleWhy, StylePart)>
    ensures fault { result ≡ causes.fault_of (view document.now) }
    ensures selections { result ≡ None → length (causes.selections_of (view document.now)) ≤ MAX_SELECTIONS }
    ensures tables { result ≡ None → length (causes.tables_of (view document.now)) ≤ MAX_TABLES }
{
    if let Some(why) = top_cause(document) {
        return Some((why, StylePart::Top));
    }
    let selections = selections_of(document);
    if let Some(fault) = selections_fault(selections) {
        return Some(fault);
    }
    tables_fault(selections, tables_of(document))
}

/// The first cause against the top.
fn top_cause(document: &Value) -> Option<StyleWhy>
    ensures cause { result ≡ causes.first_cause (causes.top_has (view document.now)) }
    ensures selections { result ≡ None → length (causes.selections_of (view document.now)) ≤ MAX_SELECTIONS }
    ensures tables { result ≡ None → length (causes.tables_of (view document.now)) ≤ MAX_TABLES }
{
    first_cause(&Top { document })
}

/// What stands against the first selection that has a cause.
fn selections_fault(selections: &[Value]) -> Option<(StyleWhy, StylePart)>
    requires { length selections.now ≤ MAX_SELECTIONS }
    ensures fault { result ≡ causes.first_with_cause causes.selection_cause parts.Selection [] (map view selections.now) }
{
    for index in 0..selections.len() {
        let part = SelectionPart {
            before: &selections[..index],
            part: &selections[index],
        };
        if let Some(why) = first_cause(&part) {
            return Some((why, StylePart::Selection(index as u32 + 1)));
        }
    }
    None
}

/// What stands against the first table that has a cause.
fn tables_fault(selections: &[Value], tables: &[Value]) -> Option<(StyleWhy, StylePart)>
    requires { length tables.now ≤ MAX_TABLES }
    ensures fault { result ≡ causes.first_with_cause (causes.table_cause (map view selections.now)) parts.Table [] (map view tables.now) }
{
    for index in 0..tables.len() {
        let part = TablePart {
            selections,
            before: &tables[..index],
            part: &tables[index],
        };
        if let Some(why) = first_cause(&part) {
            return Some((why, StylePart::Table(index as u32 + 1)));
        }
    }
    None
}

/// The style that a document writes.
#[tactic(auto, unfolding(crate::specs::Reading::style_of))]
fn style_of(alloc: Global, document: &Value) -> Result<Style, OutOfMemory>
    requires selections { length (causes.selections_of (view document.now)) ≤ MAX_SELECTIONS }
    requires tables { length (causes.tables_of (view document.now)) ≤ MAX_TABLES }
    ensures style { IfOk result (λ made. made ≡ spec.style_of (view document.now)) }
{
    let parts = selections_of(document);
    Ok(Style {
        selections: selections(alloc, parts)?,
        tables: tables(alloc, parts, tables_of(document))?,
    })
}
