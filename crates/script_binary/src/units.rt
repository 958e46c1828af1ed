//! What the binary script of items says.
ghost use Rattle.std.specs.Prelude.{◌≡◌, ◌≤◌, ℕ, ◌++◌, ◌∷◌, [], List, length, map, Ok, Some, None};
ghost use Rattle.text_model.specs.declared.item.Item.{Item};
ghost use Rattle.text_model.specs.Binary.{binary_script};
ghost use Rattle.text_model.specs.Units.{units_of};
ghost use Rattle.script_binary.specs.Fields.{AreEncoded};

/// The units of a binary script of items are these items, and then the end: so a script that is written so says just them.
pub fn says_its_items()
    ensures { (items : List Item) → length items ≤ 16000000 → AreEncoded items
        → units_of (binary_script items) ≡ map (λ item. Ok (Some item)) items ++ Ok None ∷ [] }
{}
