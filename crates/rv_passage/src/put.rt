ghost use Rattle.std.specs.Prelude.{◌≡◌, ◌<◌, ◌++◌, [], ◌∷◌, length, vec_capacity};

// Puts a value at the end of a list that has room for it. Asks for no memory: `push_reserved` says so, and `push` does not.
#[inline(always)]
pub(crate) fn put_last<T: Copy>(list: &mut Vec<T>, value: T)
    requires { length list.old.items < vec_capacity list.old }
    ensures items { list.new.items ≡ list.old.items ++ value ∷ [] }
    ensures capacity { vec_capacity list.new ≡ vec_capacity list.old }
{
    list.push_reserved(value);
}
