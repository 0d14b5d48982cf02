//! The numbers of names, looked up without a scan of the names.

ghost use Rattle.std.specs.Prelude.{◌≡◌, ◌∷◌, ◌++◌, [], ℕ, List, length, map, ◌↔◌, IfOk, IsTrue, OnOk};
ghost use Rattle.std.specs.HashMap.{get_by_text};
ghost use Rattle.std.specs.String.{string_bytes};
ghost use Rattle.plan_table.specs.Names.{HasName};
ghost use Rattle.plan_table.specs.Numbers.{AreNumbers};

use std::alloc::{AllocError, Global};
use std::collections::HashMap;

/// The number of each name of a list.
pub type NameNumbers = HashMap<String, usize>;

/// The number of each of these names, from 0.
pub fn numbers_of(alloc: Global, names: &[String]) -> Result<NameNumbers, AllocError>
    ensures { IfOk result (λ numbers. AreNumbers numbers (map string_bytes names.now)) }
{
    let mut numbers = HashMap::new(alloc);
    for (i, name) in names.iter().enumerate() {
        add_number(alloc, &mut numbers, name.as_str(), i)?;
    }
    Ok(numbers)
}

/// The number of a name, if it has one.
pub fn number_of(numbers: &NameNumbers, name: &str) -> Option<usize>
    ensures { result ≡ get_by_text numbers.now name.now }
{
    numbers.get(name).copied()
}

/// Whether a name has a number.
pub fn has_number(numbers: &NameNumbers, name: &str) -> bool
    ensures { (names : List (List ℕ)) → AreNumbers numbers.now names → (IsTrue result ↔ HasName names name.now) }
{
    numbers.contains_key(name)
}

/// Gives a name a number.
pub fn add_number(
    alloc: Global,
    numbers: &mut NameNumbers,
    name: &str,
    number: usize,
) -> Result<(), AllocError>
    ensures { OnOk result ((names : List (List ℕ)) → length names ≡ number → AreNumbers numbers.old names → AreNumbers numbers.new (names ++ name.now ∷ [])) }
{
    numbers.insert(String::from_str(alloc, name)?, number)?;
    Ok(())
}
