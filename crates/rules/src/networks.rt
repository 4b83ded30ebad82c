// MAX-QCN, for any kind.
ghost use Rattle.std.specs.Prelude.{◌≡◌};
ghost use Rattle.rules.specs.Networks.{CostsCount, EveryStated, MaxQcn};

use kinds::kind::Kind;

/// The weight of each statement where a sheet states a network of constraints, one for each pair at most. Every network of at most 12
/// items can be stated. By weight, a scenario then costs as many as the constraints that it leaves unsatisfied; and once the search has
/// finished, the values that are shown leave as few constraints unsatisfied as any values can, and their cost is how many: they solve
/// MAX-QCN.
pub fn max_qcn<K: Kind>() -> u8
    ensures weight { result ≡ 1 }
    ensures stated { EveryStated }
    ensures costs { CostsCount }
    ensures solves { MaxQcn K.Kind.meaning K.Kind.fit }
{
    1
}
