ghost use Rattle.std.specs.Prelude.{◌≡◌, ◌≤◌, ◌+◌, ◌<◌, ◌++◌, ◌∷◌, [], length, map, All, vec_len, vec_capacity};
ghost use Rattle.circuit_run.specs.Writes.{all_written};
ghost use Rattle.design_meaning.specs.Writes.{target_width, target_widths, part_at, parts_at};
ghost use Rattle.flat_design.specs.InDesign.{IsTargetIn, AreTargetsIn};
ghost use Rattle.design_state.specs.Positions.{part_of};

use bit_values::Bits;
use design_state::{Position, State, Update, position_at, selected};
use design_tree::Target;

/// How many bits a target names.
fn width_named(target: &Target, state: &State) -> u8
    requires { IsTargetIn state.now target.now }
    ensures value { result ≡ target_width state.now target.now }
    ensures some { 1 ≤ result }
    ensures most { result ≤ 128 }
{
    match target {
        Target::Whole { var } => return state.width(*var),
        Target::Word { var, at: _ } => return state.width(*var),
        Target::Part {
            var: _,
            width,
            at: _,
        } => return *width,
        Target::WordPart {
            var: _,
            word: _,
            width,
            at: _,
        } => return *width,
    }
}

/// A value at what a target names.
fn update_at(target: &Target, value: Bits, state: &State) -> Update
    requires target { IsTargetIn state.now target.now }
    requires width { value.width ≡ target_width state.now target.now }
    ensures value { part_of result ≡ part_at state.now target.now value.bits }
    ensures var { result.var < length state.now }
{
    match target {
        Target::Whole { var } => {
            return Update {
                var: *var,
                word: Position::At(0),
                low: Position::At(0),
                value,
            };
        }
        Target::Word { var, at } => {
            return Update {
                var: *var,
                word: position_at(at, state),
                low: Position::At(0),
                value,
            };
        }
        Target::Part { var, width: _, at } => {
            return Update {
                var: *var,
                word: Position::At(0),
                low: position_at(at, state),
                value,
            };
        }
        Target::WordPart {
            var,
            word,
            width: _,
            at,
        } => {
            return Update {
                var: *var,
                word: position_at(word, state),
                low: position_at(at, state),
                value,
            };
        }
    }
}

/// Puts the parts of a value, from the highest, behind those that are there. There is room for them.
pub(crate) fn place(out: &mut Vec<Update>, targets: &[Target], value: Bits, state: &State)
    requires targets { AreTargetsIn state.now targets.now }
    requires widths { target_widths state.now targets.now ≡ value.width }
    requires room { vec_len out.old + length targets.now ≤ vec_capacity out.old }
    ensures parts { map part_of out.new.items ≡ map part_of out.old.items ++ parts_at state.now targets.now value.bits }
    ensures capacity { vec_capacity out.old ≤ vec_capacity out.new }
{
    let mut left = value.width;
    for target in targets {
        let width = width_named(target, state);
        left -= width;
        let part = selected(value, Position::At(u128::from(left)), width);
        match out.push(update_at(target, part, state)) {
            Ok(()) => {}
            Err(_) => unreachable!(),
        }
    }
}

/// Writes a value to one target.
pub(crate) fn write_one(target: &Target, value: Bits, state: &mut State)
    requires target { IsTargetIn state.old target.now }
    requires width { value.width ≡ target_width state.old target.now }
    ensures { state.new ≡ all_written state.old (part_at state.old target.now value.bits ∷ []) }
{
    let update = update_at(target, value, state);
    state.write_part(&update);
}

/// Writes parts one after the other.
pub(crate) fn write_updates(updates: &[Update], state: &mut State)
    requires { All (λ u. u.var < length state.old) updates.now }
    ensures { state.new ≡ all_written state.old (map part_of updates.now) }
{
    for update in updates {
        state.write_part(update);
    }
}

/// Writes a value to targets, once the places of all of them are known. Its parts stand behind what the list has meanwhile.
pub(crate) fn set_in(spare: &mut Vec<Update>, targets: &[Target], value: Bits, state: &mut State)
    requires targets { AreTargetsIn state.old targets.now }
    requires widths { target_widths state.old targets.now ≡ value.width }
    requires room { vec_len spare.old + length targets.now ≤ vec_capacity spare.old }
    ensures spare { map part_of spare.new.items ≡ map part_of spare.old.items }
    ensures capacity { vec_capacity spare.old ≤ vec_capacity spare.new }
    ensures state { state.new ≡ all_written state.old (parts_at state.old targets.now value.bits) }
{
    if targets.len() == 1 {
        write_one(&targets[0], value, state);
        return;
    }
    let before = spare.len();
    place(spare, targets, value, state);
    write_updates(&spare.as_slice()[before..], state);
    spare.truncate(before);
}
