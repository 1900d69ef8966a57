/// Why a number can't be computed: it, or one on the way to it, leaves 128 bits or its scale passes 38, or a
/// divisor is 0.
#[derive(Clone, Copy, Debug, PartialEq, Eq)]
pub enum ArithmeticFault {
    Wide,
    Zero,
}
