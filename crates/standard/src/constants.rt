// The text of section 5.2, its attributes as rows of 14 cells, and the words of their lists as rows of 2.
ghost use Rattle.std.specs.Prelude.{◌≡◌};
ghost use Rattle.standard.specs.Section.{section};
ghost use Rattle.standard.specs.Rows.{rows_written, words_written};

const SECTION: [u8; 1083] =
    *b"OIL_VERSION = \"2.5\";\nIMPLEMENTATION Standard {\nOS {\nENUM [STANDARD, EXTENDED] STATUS;\nBOOLEAN STARTUPHOOK;\nBOOLEAN ERRORHOOK;\nBOOLEAN SHUTDOWNHOOK;\nBOOLEAN PRETASKHOOK;\nBOOLEAN POSTTASKHOOK;\nBOOLEAN USEGETSERVICEID;\nBOOLEAN USEPARAMETERACCESS;\nBOOLEAN USERESSCHEDULER = TRUE;\n};\nAPPMODE {\n};\nTASK {\nBOOLEAN [\nTRUE {\nAPPMODE_TYPE APPMODE[];\n},\nFALSE\n] AUTOSTART;\nUINT32 PRIORITY;\nUINT32 ACTIVATION;\nENUM [NON, FULL] SCHEDULE;\nEVENT_TYPE EVENT[];\nRESOURCE_TYPE RESOURCE[];\nMESSAGE_TYPE MESSAGE[];\n};\nISR {\nUINT32 [1, 2] CATEGORY;\nRESOURCE_TYPE RESOURCE[];\nMESSAGE_TYPE MESSAGE[];\n};\nCOUNTER {\nUINT32 MINCYCLE;\nUINT32 MAXALLOWEDVALUE;\nUINT32 TICKSPERBASE;\n};\nALARM {\nCOUNTER_TYPE COUNTER;\nENUM [\nACTIVATETASK {\nTASK_TYPE TASK;\n},\nSETEVENT {\nTASK_TYPE TASK;\nEVENT_TYPE EVENT;\n},\nALARMCALLBACK {\nSTRING ALARMCALLBACKNAME;\n}\n] ACTION;\nBOOLEAN [\nTRUE {\nUINT32 ALARMTIME;\nUINT32 CYCLETIME;\nAPPMODE_TYPE APPMODE[];\n},\nFALSE\n] AUTOSTART;\n};\nEVENT {\nUINT64 WITH_AUTO MASK;\n};\nRESOURCE {\nENUM [\nSTANDARD,\nLINKED {\nRESOURCE_TYPE LINKEDRESOURCE;\n},\nINTERNAL\n] RESOURCEPROPERTY;\n};\n};\nCPU Any {\n};\n";

const ROWS: [usize; 504] = [
    0, 78, 6, 41, 0, 0, 0, 0, 0, 0, 0, 0, 0, 2, 0, 94, 11, 40, 0, 0, 0, 0, 0, 0, 0, 0, 2, 2, 0,
    115, 9, 40, 0, 0, 0, 0, 0, 0, 0, 0, 2, 2, 0, 134, 12, 40, 0, 0, 0, 0, 0, 0, 0, 0, 2, 2, 0, 156,
    11, 40, 0, 0, 0, 0, 0, 0, 0, 0, 2, 2, 0, 177, 12, 40, 0, 0, 0, 0, 0, 0, 0, 0, 2, 2, 0, 199, 15,
    40, 0, 0, 0, 0, 0, 0, 0, 0, 2, 2, 0, 224, 18, 40, 0, 0, 0, 0, 0, 0, 0, 0, 2, 2, 0, 252, 15, 40,
    0, 0, 1, 0, 0, 0, 0, 0, 2, 2, 2, 329, 7, 23, 1, 0, 0, 351, 9, 309, 4, 0, 2, 2, 2, 351, 9, 40,
    0, 0, 0, 0, 0, 0, 0, 0, 2, 4, 2, 369, 8, 35, 0, 0, 0, 0, 0, 0, 0, 0, 4, 4, 2, 386, 10, 35, 0,
    0, 0, 0, 0, 0, 0, 0, 4, 4, 2, 415, 8, 41, 0, 0, 0, 0, 0, 0, 0, 0, 4, 6, 2, 436, 5, 29, 1, 0, 0,
    0, 0, 0, 0, 0, 6, 6, 2, 459, 8, 28, 1, 0, 0, 0, 0, 0, 0, 0, 6, 6, 2, 484, 7, 31, 1, 0, 0, 0, 0,
    0, 0, 0, 6, 6, 3, 518, 8, 35, 0, 0, 0, 0, 0, 0, 0, 1, 6, 6, 3, 542, 8, 28, 1, 0, 0, 0, 0, 0, 0,
    0, 6, 6, 3, 567, 7, 31, 1, 0, 0, 0, 0, 0, 0, 0, 6, 6, 4, 598, 8, 35, 0, 0, 0, 0, 0, 0, 0, 0, 6,
    6, 4, 615, 15, 35, 0, 0, 0, 0, 0, 0, 0, 0, 6, 6, 4, 639, 12, 35, 0, 0, 0, 0, 0, 0, 0, 0, 6, 6,
    5, 677, 7, 26, 0, 0, 0, 0, 0, 0, 0, 0, 6, 6, 5, 718, 4, 24, 0, 0, 0, 821, 6, 693, 12, 0, 6, 6,
    5, 748, 4, 24, 0, 0, 0, 821, 6, 727, 8, 0, 6, 6, 5, 765, 5, 29, 0, 0, 0, 821, 6, 727, 8, 0, 6,
    6, 5, 798, 17, 39, 0, 0, 0, 821, 6, 775, 13, 0, 6, 6, 5, 821, 6, 41, 0, 0, 0, 0, 0, 0, 0, 0, 6,
    9, 5, 853, 9, 35, 0, 0, 0, 917, 9, 839, 4, 0, 9, 9, 5, 871, 9, 35, 0, 0, 0, 917, 9, 839, 4, 0,
    9, 9, 5, 895, 7, 23, 1, 0, 0, 917, 9, 839, 4, 0, 9, 9, 5, 917, 9, 40, 0, 0, 0, 0, 0, 0, 0, 0,
    9, 11, 7, 956, 4, 37, 0, 1, 0, 0, 0, 0, 0, 0, 11, 11, 6, 1016, 14, 28, 0, 0, 0, 1046, 16, 993,
    6, 0, 11, 11, 6, 1046, 16, 41, 0, 0, 0, 0, 0, 0, 0, 0, 11, 14,
];

const WORDS: [usize; 28] = [
    58, 8, 68, 8, 309, 4, 343, 5, 404, 3, 409, 4, 693, 12, 727, 8, 775, 13, 839, 4, 909, 5, 983, 8,
    993, 6, 1035, 8,
];

// The text.
pub fn section_text() -> [u8; 1083]
    ensures { result ≡ section }
{
    SECTION
}

// The rows of the attributes.
pub fn section_rows() -> [usize; 504]
    ensures { result ≡ rows_written }
{
    ROWS
}

// The rows of the words.
pub fn section_words() -> [usize; 28]
    ensures { result ≡ words_written }
{
    WORDS
}
