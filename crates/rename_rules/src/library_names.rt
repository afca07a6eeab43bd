// Names of the C library (clause 7 of ISO/IEC 9899:1999 and of ISO/IEC 9899:2011) and of gcc, and words of gcc that no name may take.
ghost use Rattle.std.specs.Prelude.{◌≡◌};
ghost use Rattle.rename_rules.specs.LibraryNames.{is_closed_in, is_further_word, is_library_name, number_names, text_names, utility_names, thread_names, own_names, further_words};

use cs_base::{is_built_in, is_reserved_in};
use gnu_lists::holds_word;

const NUMBER_NAMES: &[u8] =
    b"cabs cabsf cabsl cacos cacosf cacosh cacoshf cacoshl cacosl carg cargf cargl casin casinf casinh
casinhf casinhl casinl catan catanf catanh catanhf catanhl catanl ccos ccosf ccosh ccoshf ccoshl
ccosl cexp cexpf cexpl cimag cimagf cimagl clog clogf clogl conj conjf conjl cpow cpowf cpowl cproj
cprojf cprojl creal crealf creall csin csinf csinh csinhf csinhl csinl csqrt csqrtf csqrtl ctan
ctanf ctanh ctanhf ctanhl ctanl cerf cerfc cerfcf cerfcl cerff cerfl cexp2 cexp2f cexp2l cexpm1
cexpm1f cexpm1l clgamma clgammaf clgammal clog10 clog10f clog10l clog1p clog1pf clog1pl clog2 clog2f
clog2l ctgamma ctgammaf ctgammal feclearexcept fegetexceptflag feraiseexcept fesetexceptflag
fetestexcept fegetround fesetround fegetenv feholdexcept fesetenv feupdateenv acos acosf acosh
acoshf acoshl acosl asin asinf asinh asinhf asinhl asinl atan atan2 atan2f atan2l atanf atanh atanhf
atanhl atanl cbrt cbrtf cbrtl ceil ceilf ceill copysign copysignf copysignl cos cosf cosh coshf
coshl cosl erf erfc erfcf erfcl erff erfl exp exp2 exp2f exp2l expf expl expm1 expm1f expm1l fabs
fabsf fabsl fdim fdimf fdiml floor floorf floorl fma fmaf fmal fmax fmaxf fmaxl fmin fminf fminl
fmod fmodf fmodl frexp frexpf frexpl hypot hypotf hypotl ilogb ilogbf ilogbl ldexp ldexpf ldexpl
lgamma lgammaf lgammal llrint llrintf llrintl llround llroundf llroundl log log10 log10f log10l
log1p log1pf log1pl log2 log2f log2l logb logbf logbl logf logl lrint lrintf lrintl lround lroundf
lroundl modf modff modfl nan nanf nanl nearbyint nearbyintf nearbyintl nextafter nextafterf
nextafterl nexttoward nexttowardf nexttowardl pow powf powl remainder remainderf remainderl remquo
remquof remquol rint rintf rintl round roundf roundl scalbln scalblnf scalblnl scalbn scalbnf
scalbnl sin sinf sinh sinhf sinhl sinl sqrt sqrtf sqrtl tan tanf tanh tanhf tanhl tanl tgamma
tgammaf tgammal trunc truncf truncl
";

const TEXT_NAMES: &[u8] =
    b"isalnum isalpha isblank iscntrl isdigit isgraph islower isprint ispunct isspace isupper isxdigit
tolower toupper memchr memcmp memcpy memmove memset strcat strchr strcmp strcoll strcpy strcspn
strerror strlen strncat strncmp strncpy strpbrk strrchr strspn strstr strtok strxfrm mbrtoc16
c16rtomb mbrtoc32 c32rtomb btowc fgetwc fgetws fputwc fputws fwide fwprintf fwscanf getwc getwchar
mbrlen mbrtowc mbsinit mbsrtowcs putwc putwchar swprintf swscanf ungetwc vfwprintf vfwscanf
vswprintf vswscanf vwprintf vwscanf wcrtomb wcscat wcschr wcscmp wcscoll wcscpy wcscspn wcsftime
wcslen wcsncat wcsncmp wcsncpy wcspbrk wcsrchr wcsrtombs wcsspn wcsstr wcstod wcstof wcstok wcstol
wcstold wcstoll wcstoul wcstoull wcsxfrm wctob wmemchr wmemcmp wmemcpy wmemmove wmemset wprintf
wscanf iswalnum iswalpha iswblank iswcntrl iswctype iswdigit iswgraph iswlower iswprint iswpunct
iswspace iswupper iswxdigit towctrans towlower towupper wctrans wctype
";

const UTILITY_NAMES: &[u8] =
    b"clearerr fclose feof ferror fflush fgetc fgetpos fgets fopen fprintf fputc fputs fread freopen
fscanf fseek fsetpos ftell fwrite getc getchar gets perror printf putc putchar puts remove rename
rewind scanf setbuf setvbuf snprintf sprintf sscanf tmpfile tmpnam ungetc vfprintf vfscanf vprintf
vscanf vsnprintf vsprintf vsscanf abort abs aligned_alloc atexit atof atoi atol atoll at_quick_exit
bsearch calloc div exit _Exit free getenv labs ldiv llabs lldiv malloc mblen mbstowcs mbtowc qsort
quick_exit rand realloc srand strtod strtof strtol strtold strtoll strtoul strtoull system wcstombs
wctomb imaxabs imaxdiv strtoimax strtoumax wcstoimax wcstoumax errno localeconv setlocale longjmp
setjmp raise signal va_copy va_end asctime clock ctime difftime gmtime localtime mktime strftime
time timespec_get
";

const THREAD_NAMES: &[u8] =
    b"atomic_init atomic_is_lock_free atomic_thread_fence atomic_signal_fence atomic_store
atomic_store_explicit atomic_load atomic_load_explicit atomic_exchange atomic_exchange_explicit
atomic_compare_exchange_strong atomic_compare_exchange_strong_explicit atomic_compare_exchange_weak
atomic_compare_exchange_weak_explicit atomic_fetch_add atomic_fetch_add_explicit atomic_fetch_sub
atomic_fetch_sub_explicit atomic_fetch_or atomic_fetch_or_explicit atomic_fetch_xor
atomic_fetch_xor_explicit atomic_fetch_and atomic_fetch_and_explicit atomic_flag_test_and_set
atomic_flag_test_and_set_explicit atomic_flag_clear atomic_flag_clear_explicit call_once
cnd_broadcast cnd_destroy cnd_init cnd_signal cnd_timedwait cnd_wait mtx_destroy mtx_init mtx_lock
mtx_timedlock mtx_trylock mtx_unlock thrd_create thrd_current thrd_detach thrd_equal thrd_exit
thrd_join thrd_sleep thrd_yield tss_create tss_delete tss_get tss_set
";

const OWN_NAMES: &[u8] =
    b"__clear_cache __cyg_profile_func_enter __cyg_profile_func_exit __fprintf_chk __memcpy_chk
__memmove_chk __mempcpy_chk __memset_chk __printf_chk __snprintf_chk __sprintf_chk __stpcpy_chk
__stpncpy_chk __strcat_chk __strcpy_chk __strncat_chk __strncpy_chk __vfprintf_chk __vprintf_chk
__vsnprintf_chk __vsprintf_chk _exit acc_on_device alloca bcmp bcopy bzero ceilf128 ceilf16 ceilf32
ceilf32x ceilf64 ceilf64x copysignf128 copysignf16 copysignf32 copysignf32x copysignf64 copysignf64x
dcgettext dgettext drem dremf dreml execl execle execlp execv execve execvp exp10 exp10f exp10l
fabsd128 fabsd32 fabsd64 fabsf128 fabsf16 fabsf32 fabsf32x fabsf64 fabsf64x ffs ffsimax ffsl ffsll
finite finited128 finited32 finited64 finitef finitel floorf128 floorf16 floorf32 floorf32x floorf64
floorf64x fmaf128 fmaf16 fmaf32 fmaf32x fmaf64 fmaf64x fmaxf128 fmaxf16 fmaxf32 fmaxf32x fmaxf64
fmaxf64x fminf128 fminf16 fminf32 fminf32x fminf64 fminf64x fork fprintf_unlocked fputc_unlocked
fputs_unlocked fwrite_unlocked gamma gamma_r gammaf gammaf_r gammal gammal_r gettext index isascii
isinf isinfd128 isinfd32 isinfd64 isinff isinfl isnan isnand128 isnand32 isnand64 isnanf isnanl j0
j0f j0l j1 j1f j1l jn jnf jnl lgamma_r lgammaf_r lgammal_r mempcpy nand128 nand32 nand64 nanf128
nanf16 nanf32 nanf32x nanf64 nanf64x nearbyintf128 nearbyintf16 nearbyintf32 nearbyintf32x
nearbyintf64 nearbyintf64x posix_memalign pow10 pow10f pow10l printf_unlocked putc_unlocked
putchar_unlocked puts_unlocked rindex rintf128 rintf16 rintf32 rintf32x rintf64 rintf64x roundeven
roundevenf roundevenf128 roundevenf16 roundevenf32 roundevenf32x roundevenf64 roundevenf64x
roundevenl roundf128 roundf16 roundf32 roundf32x roundf64 roundf64x scalb scalbf scalbl signbit
signbitd128 signbitd32 signbitd64 signbitf signbitl significand significandf significandl sincos
sincosf sincosl sqrtf128 sqrtf16 sqrtf32 sqrtf32x sqrtf64 sqrtf64x stpcpy stpncpy strcasecmp strdup
strfmon strncasecmp strndup strnlen toascii truncf128 truncf16 truncf32 truncf32x truncf64 truncf64x
y0 y0f y0l y1 y1f y1l yn ynf ynl stdin stdout stderr environ optarg opterr optind optopt daylight
getdate_err h_errno signgam sys_errlist sys_nerr timezone tzname program_invocation_name
program_invocation_short_name __bss_start __curbrk __environ __libc_start_main __progname
__progname_full _IO_2_1_stderr_ _IO_2_1_stdin_ _IO_2_1_stdout_ _edata _end _etext
";

const FURTHER_WORDS: &[u8] =
    b"__null __seg_fs __seg_gs __transaction_atomic __transaction_cancel __transaction_relaxed __GIMPLE
__PHI __RTL _Sat _Fract _Accum _Float128x __BASE_FILE__ __FILE_NAME__ __INCLUDE_LEVEL__
__TIMESTAMP__ __has_attribute __has_builtin __has_c_attribute __has_cpp_attribute
";

#[tactic(auto, unfolding(crate::specs::LibraryNames::number_names))]
fn number_names() -> &'static [u8]
    ensures { result.now ≡ number_names }
{
    NUMBER_NAMES
}

#[tactic(auto, unfolding(crate::specs::LibraryNames::text_names))]
fn text_names() -> &'static [u8]
    ensures { result.now ≡ text_names }
{
    TEXT_NAMES
}

#[tactic(auto, unfolding(crate::specs::LibraryNames::utility_names))]
fn utility_names() -> &'static [u8]
    ensures { result.now ≡ utility_names }
{
    UTILITY_NAMES
}

#[tactic(auto, unfolding(crate::specs::LibraryNames::thread_names))]
fn thread_names() -> &'static [u8]
    ensures { result.now ≡ thread_names }
{
    THREAD_NAMES
}

#[tactic(auto, unfolding(crate::specs::LibraryNames::own_names))]
fn own_names() -> &'static [u8]
    ensures { result.now ≡ own_names }
{
    OWN_NAMES
}

#[tactic(auto, unfolding(crate::specs::LibraryNames::further_words))]
fn further_words() -> &'static [u8]
    ensures { result.now ≡ further_words }
{
    FURTHER_WORDS
}

#[tactic(auto, unfolding(crate::specs::LibraryNames::is_library_name))]
/// Whether the library has an identifier with external linkage of that spelling, or gcc a function.
pub(crate) fn is_library_name(text: &[u8]) -> bool
    ensures { result ≡ is_library_name text.now }
{
    holds_word(text, number_names())
        || holds_word(text, text_names())
        || holds_word(text, utility_names())
        || holds_word(text, thread_names())
        || holds_word(text, own_names())
        || is_built_in(text)
}

#[tactic(auto, unfolding(crate::specs::LibraryNames::is_further_word))]
fn is_further_word(text: &[u8]) -> bool
    ensures { result ≡ is_further_word text.now }
{
    holds_word(text, further_words())
}

/// Whether no name may take the spelling; `gnu` says whether a unit of the workspace is of GNU C.
pub(crate) fn is_closed_in(gnu: bool, text: &[u8]) -> bool
    ensures { result ≡ is_closed_in gnu text.now }
{
    is_reserved_in(gnu, text) || gnu && is_further_word(text)
}
