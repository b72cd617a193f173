//! Words of C and C++ that can be no kind.

/// The keywords and the names of standard headers that a kind after its prefix could be, each between
/// blanks.
pub(crate) const WORDS: &[u8] = b" \
    alignas alignof and and_eq asm auto bitand bitor bool break case catch char char16_t \
    char32_t char8_t class co_await co_return co_yield compl concept const const_cast consteval \
    constexpr constinit continue decltype default delete do double dynamic_cast else enum \
    explicit export extern false float for friend goto if inline int long mutable namespace new \
    noexcept not not_eq nullptr operator or or_eq private protected public register \
    reinterpret_cast requires restrict return short signed sizeof static static_assert \
    static_cast struct switch template this thread_local throw true try typedef typeid typename \
    typeof typeof_unqual union unsigned using virtual void volatile wchar_t while xor xor_eq \
    _Alignas _Alignof _Atomic _BitInt _Bool _Complex _Decimal128 _Decimal32 _Decimal64 _Float128 \
    _Float16 _Float32 _Float32x _Float64 _Float64x _Generic _Imaginary _Noreturn _Static_assert \
    _Thread_local NULL max_align_t nullptr_t offsetof ptrdiff_t size_t CHAR_BIT CHAR_MAX \
    CHAR_MIN INT_MAX INT_MIN LLONG_MAX LLONG_MIN LONG_MAX LONG_MIN MB_LEN_MAX SCHAR_MAX \
    SCHAR_MIN SHRT_MAX SHRT_MIN UCHAR_MAX UINT_MAX ULLONG_MAX ULONG_MAX USHRT_MAX INT8_C \
    INT8_MAX INT8_MIN INT16_C INT16_MAX INT16_MIN INT32_C INT32_MAX INT32_MIN INT64_C INT64_MAX \
    INT64_MIN UINT8_C UINT8_MAX UINT16_C UINT16_MAX UINT32_C UINT32_MAX UINT64_C UINT64_MAX \
    INTMAX_C INTMAX_MAX INTMAX_MIN UINTMAX_C UINTMAX_MAX INTPTR_MAX INTPTR_MIN UINTPTR_MAX \
    PTRDIFF_MAX PTRDIFF_MIN SIZE_MAX WCHAR_MAX WCHAR_MIN WINT_MAX WINT_MIN SIG_ATOMIC_MAX \
    SIG_ATOMIC_MIN SIG_DFL SIG_ERR SIG_IGN FLT_DIG FLT_EPSILON FLT_MANT_DIG FLT_MAX FLT_MIN \
    FLT_RADIX FLT_ROUNDS DBL_DIG DBL_EPSILON DBL_MANT_DIG DBL_MAX DBL_MIN LDBL_DIG LDBL_EPSILON \
    LDBL_MANT_DIG LDBL_MAX LDBL_MIN DECIMAL_DIG FILENAME_MAX FOPEN_MAX L_tmpnam SEEK_CUR \
    SEEK_END SEEK_SET TMP_MAX EXIT_FAILURE EXIT_SUCCESS MB_CUR_MAX RAND_MAX LC_ALL LC_COLLATE \
    LC_CTYPE LC_MONETARY LC_NUMERIC LC_TIME CLOCKS_PER_SEC HUGE_VAL FP_INFINITE FP_NAN FP_NORMAL \
    FP_SUBNORMAL FP_ZERO ";
