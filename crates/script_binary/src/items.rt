//! The item of a tag and its numbers.

ghost use Rattle.std.specs.Prelude.{◌≡◌, ◌<◌, ◌^◌, All, false};
ghost use Rattle.text_model.specs.Grammar.{is_above_shape};
ghost use Rattle.text_model.specs.BinaryReading.{item_with, setting_by, fixed_by, array_by, weak_by};

use crate::commands::command_with;
use crate::numbers::{four_of, one_of, truth, two_of};
use script_text::type_number;
use text_model::{BadLine, Item};
use type_table::{Shape, TypeInfo};

/// The greatest place of a setting.
const MAX_NAME: u64 = 12;

/// The item of a tag and its numbers. `Range` is answered where they have its form and a number is above the greatest of its
/// place, `Syntax` where they have no form.
#[tactic(auto, unfolding(text_model::specs::BinaryReading::item_with))]
pub(crate) fn item_with(tag: u8, numbers: &[u64]) -> Result<Item, BadLine>
    ensures reading { result ≡ item_with tag numbers.now }
    ensures words { All (λ n. n < 2 ^ 64) numbers.now }
{
    match tag {
        1 => setting_by(numbers),
        2 => fixed_by(numbers),
        3 => array_by(Shape::IntArray, numbers),
        4 => array_by(Shape::RefArray, numbers),
        5 => weak_by(numbers),
        _ => Ok(Item::Command(command_with(tag, numbers)?)),
    }
}

/// A setting, by its place and its value.
#[tactic(auto, unfolding(text_model::specs::BinaryReading::setting_by))]
fn setting_by(numbers: &[u64]) -> Result<Item, BadLine>
    ensures { result ≡ setting_by numbers.now }
{
    let (name, value) = two_of(numbers)?;
    if name > MAX_NAME {
        return Err(BadLine::Syntax);
    }
    Ok(Item::Setting {
        name: name as u8,
        value,
    })
}

/// A type of a shape with counts.
fn fixed_by(numbers: &[u64]) -> Result<Item, BadLine>
    ensures { result ≡ fixed_by numbers.now }
{
    let (id, ints, refs, destructor) = four_of(numbers)?;
    let destructor = truth(destructor)?;
    let id = type_number(id)?;
    let ints = type_number(ints)?;
    let refs = type_number(refs)?;
    let shape = Shape::Fixed { ints, refs };
    Ok(Item::TypeDef {
        id,
        info: TypeInfo { shape, destructor },
    })
}

/// A type of a shape with no counts, which may have a destructor.
fn array_by(shape: Shape, numbers: &[u64]) -> Result<Item, BadLine>
    requires { is_above_shape shape ≡ false }
    ensures { result ≡ array_by shape numbers.now }
{
    let (id, destructor) = two_of(numbers)?;
    let destructor = truth(destructor)?;
    let id = type_number(id)?;
    Ok(Item::TypeDef {
        id,
        info: TypeInfo { shape, destructor },
    })
}

/// A weak type, which has no destructor.
fn weak_by(numbers: &[u64]) -> Result<Item, BadLine>
    ensures { result ≡ weak_by numbers.now }
{
    let id = type_number(one_of(numbers)?)?;
    Ok(Item::TypeDef {
        id,
        info: TypeInfo {
            shape: Shape::Weak,
            destructor: false,
        },
    })
}
