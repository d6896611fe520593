ghost use Rattle.std.specs.Prelude.{◌≡◌, ◌≢◌, ◌+ℤ◌, ◌-ℤ◌, ◌*ℤ◌, neg_ℤ, pos, int_div, int_rem};
ghost use Rattle.std.specs.Int.{int_wrap, w32};

/// The sum of two Ints, which wraps at 32 bits.
pub fn add(a: i32, b: i32) -> i32
    ensures { result ≡ int_wrap w32 (a +ℤ b) }
{
    a.wrapping_add(b)
}

/// The difference of two Ints, which wraps at 32 bits.
pub fn sub(a: i32, b: i32) -> i32
    ensures { result ≡ int_wrap w32 (a -ℤ b) }
{
    a.wrapping_sub(b)
}

/// The product of two Ints, which wraps at 32 bits.
pub fn mul(a: i32, b: i32) -> i32
    ensures { result ≡ int_wrap w32 (a *ℤ b) }
{
    a.wrapping_mul(b)
}

/// The Int with the other sign. The least Int stays as it is.
pub fn neg(a: i32) -> i32
    ensures { result ≡ int_wrap w32 (neg_ℤ a) }
{
    a.wrapping_neg()
}

/// The quotient, cut toward zero. The least Int divided by -1 is the least Int.
pub fn div(a: i32, b: i32) -> i32
    requires { b ≢ pos 0 }
    ensures { result ≡ int_wrap w32 (int_div a b) }
{
    a.wrapping_div(b)
}

/// The remainder of `div`, which has the sign of `a` or is 0.
pub fn rem(a: i32, b: i32) -> i32
    requires { b ≢ pos 0 }
    ensures { result ≡ int_rem a b }
{
    a.wrapping_rem(b)
}
