//! Runs of bytes of one sort.
ghost use Rattle.std.specs.Prelude.{◌≡◌, ◌≤◌, Bool, length};
ghost use Rattle.std.specs.List.{prefix_len};
ghost use Rattle.classes.specs.Bytes.{class_of};
ghost use Rattle.classes.specs.declared.Class.{Class};

use classes::{Class, class_of};

/// How many bytes at the front the longest run takes of bytes whose class goes on with it.
pub(crate) fn reach<F: Fn(Class) -> bool>(bytes: &[u8], goes_on: F) -> usize
    requires { F.IsAlwaysCallable goes_on }
    ensures within { result ≤ length bytes.now }
    ensures value { (p : Class → Bool) → ((c : Class) (r : Bool) → F.post goes_on c r → r ≡ p c) → result ≡ prefix_len (λ b. p (class_of b)) bytes.now }
{
    bytes
        .iter()
        .take_while(|byte| goes_on(class_of(**byte)))
        .count()
}
