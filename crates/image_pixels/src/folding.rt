//! A call of a closure with an item of any type.

ghost use Rattle.std.specs.Fn.{Called, Takes};

// What `f` makes of `acc` and `item`.
//
// A generated proof follows a closure that takes references only through a function for which
// their type is a parameter.
pub(crate) fn fold_one<A, B, F: FnMut(B, A) -> B>(f: &mut F, acc: B, item: A) -> B
    requires takes { Takes F.FnMut f.old (acc, (item, tt)) }
    ensures called { Called F.FnMut f.old (acc, (item, tt)) result f.new }
{
    f(acc, item)
}
