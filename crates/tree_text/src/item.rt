//! Items, with those that they hold.

use crate::expression::expr;
use crate::page::Page;
use crate::plain_item::plain;
use crate::statement::bound;
use vlog_tree::{BlockPlaces, GenArm, GenBody, Item, ItemKind};

fn between(out: &mut Page, places: BlockPlaces) {
    out.place(places.begin);
    out.place(places.end);
}

#[cycle(item)]
fn item(out: &mut Page, tree: &Item) {
    out.put(" (");
    plain(out, &tree.what);
    inner(out, &tree.what);
    out.place(tree.place);
    out.put(")");
}

/// The items in an item, with what stands before them.
#[cycle(item)]
fn inner(out: &mut Page, what: &ItemKind) {
    match what {
        ItemKind::Generate(inner) => items(out, inner.as_slice()),
        ItemKind::Loop {
            name,
            from,
            test,
            step_name,
            step,
            block,
            places,
            body,
        } => {
            bound(out, name, from);
            expr(out, test);
            bound(out, step_name, step);
            out.named(block);
            between(out, *places);
            items(out, body.as_slice());
        }
        ItemKind::Choose { arms, last } => {
            gen_arms(out, arms.as_slice());
            if let Some(last) = last {
                out.put(" else");
                gen_body(out, last);
            }
        }
        _ => {}
    }
}

#[cycle(item)]
pub(crate) fn items(out: &mut Page, trees: &[Item]) {
    for tree in trees {
        item(out, tree);
    }
}

#[cycle(item)]
fn gen_arms(out: &mut Page, arms: &[GenArm]) {
    for arm in arms {
        out.put(" if");
        expr(out, &arm.test);
        gen_body(out, &arm.body);
    }
}

#[cycle(item)]
fn gen_body(out: &mut Page, body: &GenBody) {
    if let Some(name) = &body.name {
        out.named(name);
    }
    if let Some(places) = body.places {
        between(out, places);
    }
    items(out, body.items.as_slice());
}
