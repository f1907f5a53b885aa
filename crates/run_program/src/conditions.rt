//! The conditions that the texts of a command line spell.
ghost use Rattle.std.specs.Prelude.{◌≡◌, ◌≤◌, ◌<◌, ◌^◌, ◌++◌, ◌∷◌, [], None, Some, IfErr, IfOk, OnOk, length, map};
ghost use Rattle.run_program.specs.Conditions.{AreSpelt, IsUnspelt, IsUnspeltOf, spelt, texts_of, unspelt_from};

use crate::{Criteria, VerdictError};
use explore_verdict::{Condition, Demand, Pattern};
use std::alloc::{AllocError, Global};

/// Returns the conditions that the texts of the criteria spell. The error is NoCondition for the first text that spells
/// none, and Memory if an allocation failed.
pub(crate) fn conditions_of(
    alloc: Global,
    criteria: &Criteria<'_>,
) -> Result<Vec<Condition>, VerdictError>
    requires never { length criteria.now.never.now ≤ 10 }
    requires always { length criteria.now.always.now ≤ 10 }
    requires exists { length criteria.now.exists.now ≤ 10 }
    ensures spelt { IfOk result (λ conditions. AreSpelt criteria.now conditions.items) }
    ensures unspelt { IfErr result (IsUnspelt criteria.now) }
{
    let mut conditions = Vec::new(alloc);
    add_spelt(alloc, &mut conditions, Demand::Never, criteria.never)?;
    add_spelt(alloc, &mut conditions, Demand::Always, criteria.always)?;
    add_spelt(alloc, &mut conditions, Demand::Exists, criteria.exists)?;
    Ok(conditions)
}

/// Adds the conditions of one demand, in the order of their texts.
fn add_spelt(
    alloc: Global,
    conditions: &mut Vec<Condition>,
    demand: Demand,
    texts: &[&str],
) -> Result<(), VerdictError>
    requires { length texts.now ≤ 10 }
    ensures spelt { OnOk result (map Some conditions.new.items
        ≡ map Some conditions.old.items ++ spelt demand 1 (texts_of texts.now)) }
    ensures all { OnOk result (unspelt_from 1 (texts_of texts.now) ≡ None) }
    ensures unspelt { IfErr result (IsUnspeltOf demand (texts_of texts.now)) }
{
    let mut number = 1;
    let mut rest = texts;
    while let [text, behind @ ..] = rest {
        let Some(pattern) = Pattern::spelt(alloc, text.as_bytes())? else {
            return Err(VerdictError::NoCondition(demand, number));
        };
        add(
            conditions,
            Condition {
                demand,
                number,
                pattern,
            },
        )?;
        number += 1;
        rest = behind;
    }
    Ok(())
}

/// Adds a condition.
fn add(conditions: &mut Vec<Condition>, condition: Condition) -> Result<(), AllocError>
    ensures { OnOk result (conditions.new.items ≡ conditions.old.items ++ condition ∷ []) }
{
    conditions.push(condition)?;
    Ok(())
}
