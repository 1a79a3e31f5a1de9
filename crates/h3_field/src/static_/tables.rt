//! The entries of the static table (RFC 9204, appendix A), and where each is found. `scripts/gate/tables.py` writes them.

/// The names of the entries, one after the other.
pub(crate) static NAMES: [u8; 1294] = *b"\
    :authority:pathagecontent-dispositioncontent-lengthcookiedateetagif-modified-sinceif-none-matchlast-\
    modifiedlinklocationrefererset-cookie:method:method:method:method:method:method:method:scheme:scheme\
    :status:status:status:status:statusacceptacceptaccept-encodingaccept-rangesaccess-control-allow-head\
    ersaccess-control-allow-headersaccess-control-allow-origincache-controlcache-controlcache-controlcac\
    he-controlcache-controlcache-controlcontent-encodingcontent-encodingcontent-typecontent-typecontent-\
    typecontent-typecontent-typecontent-typecontent-typecontent-typecontent-typecontent-typecontent-type\
    rangestrict-transport-securitystrict-transport-securitystrict-transport-securityvaryvaryx-content-ty\
    pe-optionsx-xss-protection:status:status:status:status:status:status:status:status:statusaccept-lang\
    uageaccess-control-allow-credentialsaccess-control-allow-credentialsaccess-control-allow-headersacce\
    ss-control-allow-methodsaccess-control-allow-methodsaccess-control-allow-methodsaccess-control-expos\
    e-headersaccess-control-request-headersaccess-control-request-methodaccess-control-request-methodalt\
    -svcauthorizationcontent-security-policyearly-dataexpect-ctforwardedif-rangeoriginpurposeservertimin\
    g-allow-originupgrade-insecure-requestsuser-agentx-forwarded-forx-frame-optionsx-frame-options";

/// The place at which each name begins, and the end of the last one.
pub(crate) static NAME_STARTS: [u16; 100] = [
    0, 10, 15, 18, 37, 51, 57, 61, 65, 82, 95, 108, 112, 120, 127, 137, 144, 151, 158, 165, 172,
    179, 186, 193, 200, 207, 214, 221, 228, 235, 241, 247, 262, 275, 303, 331, 358, 371, 384, 397,
    410, 423, 436, 452, 468, 480, 492, 504, 516, 528, 540, 552, 564, 576, 588, 600, 605, 630, 655,
    680, 684, 688, 710, 726, 733, 740, 747, 754, 761, 768, 775, 782, 789, 804, 836, 868, 896, 924,
    952, 980, 1009, 1039, 1068, 1097, 1104, 1117, 1140, 1150, 1159, 1168, 1176, 1182, 1189, 1195,
    1214, 1239, 1249, 1264, 1279, 1294,
];

/// The values of the entries, one after the other.
pub(crate) static VALUES: [u8; 732] = *b"\
    /00CONNECTDELETEGETHEADOPTIONSPOSTPUThttphttps103200304404503*/*application/dns-messagegzip, deflate\
    , brbytescache-controlcontent-type*max-age=0max-age=2592000max-age=604800no-cacheno-storepublic, max\
    -age=31536000brgzipapplication/dns-messageapplication/javascriptapplication/jsonapplication/x-www-fo\
    rm-urlencodedimage/gifimage/jpegimage/pngtext/csstext/html; charset=utf-8text/plaintext/plain;charse\
    t=utf-8bytes=0-max-age=31536000max-age=31536000; includesubdomainsmax-age=31536000; includesubdomain\
    s; preloadaccept-encodingoriginnosniff1; mode=block100204206302400403421425500FALSETRUE*getget, post\
    , optionsoptionscontent-lengthcontent-typegetpostclearscript-src 'none'; object-src 'none'; base-uri \
    'none'1prefetch*1denysameorigin";

/// The place at which each value begins, and the end of the last one.
pub(crate) static VALUE_STARTS: [u16; 100] = [
    0, 0, 1, 2, 2, 3, 3, 3, 3, 3, 3, 3, 3, 3, 3, 3, 10, 16, 19, 23, 30, 34, 37, 41, 46, 49, 52, 55,
    58, 61, 64, 87, 104, 109, 122, 134, 135, 144, 159, 173, 181, 189, 213, 215, 219, 242, 264, 280,
    313, 322, 332, 341, 349, 373, 383, 407, 415, 431, 466, 510, 525, 531, 538, 551, 554, 557, 560,
    563, 566, 569, 572, 575, 578, 578, 583, 587, 588, 591, 609, 616, 630, 642, 645, 649, 654, 654,
    707, 708, 708, 708, 708, 708, 716, 716, 717, 718, 718, 718, 722, 732,
];

/// By the hash of a name: the least index of an entry of that name, or 99.
pub(crate) static NAME_SLOTS: [u8; 256] = [
    99, 14, 62, 99, 3, 99, 99, 99, 99, 59, 99, 99, 99, 31, 99, 76, 99, 86, 99, 99, 99, 44, 99, 99,
    99, 99, 99, 99, 99, 99, 99, 99, 99, 99, 99, 99, 99, 99, 99, 7, 96, 99, 99, 33, 99, 99, 99, 99,
    99, 99, 99, 99, 99, 99, 99, 42, 99, 99, 99, 99, 35, 99, 99, 99, 99, 99, 87, 99, 99, 99, 99, 99,
    99, 99, 99, 56, 99, 99, 99, 99, 99, 99, 99, 99, 99, 79, 99, 99, 99, 5, 9, 99, 99, 99, 90, 99,
    29, 99, 10, 8, 99, 99, 99, 99, 99, 99, 99, 99, 99, 99, 99, 73, 99, 99, 99, 72, 99, 99, 99, 99,
    99, 99, 1, 99, 99, 99, 99, 99, 93, 99, 99, 99, 84, 99, 99, 99, 99, 99, 88, 85, 99, 99, 99, 61,
    99, 99, 99, 99, 99, 89, 99, 99, 99, 99, 99, 99, 99, 94, 99, 99, 99, 99, 92, 99, 99, 99, 99, 99,
    99, 24, 99, 2, 99, 99, 15, 80, 99, 97, 99, 22, 99, 99, 36, 99, 99, 99, 99, 99, 99, 99, 99, 99,
    99, 99, 99, 99, 99, 99, 99, 99, 99, 0, 99, 11, 13, 99, 99, 99, 99, 99, 81, 99, 99, 6, 99, 99,
    99, 99, 99, 99, 99, 99, 99, 99, 99, 99, 99, 99, 99, 83, 99, 99, 4, 99, 99, 99, 99, 99, 99, 99,
    95, 99, 99, 99, 99, 99, 99, 99, 99, 99, 12, 91, 99, 32, 99, 55,
];

/// By the hash of a field: the index of the equal entry, or 99.
pub(crate) static FIELD_SLOTS: [u8; 512] = [
    99, 80, 99, 99, 99, 99, 99, 99, 99, 99, 10, 99, 2, 99, 99, 99, 99, 99, 99, 99, 49, 14, 23, 99,
    99, 99, 99, 99, 99, 99, 99, 8, 99, 99, 99, 99, 99, 99, 99, 99, 99, 99, 99, 99, 99, 59, 99, 99,
    99, 99, 99, 35, 99, 99, 99, 38, 99, 89, 99, 99, 99, 99, 99, 99, 99, 99, 99, 63, 99, 21, 98, 99,
    99, 99, 99, 99, 37, 16, 99, 99, 99, 99, 99, 99, 3, 24, 99, 99, 99, 99, 99, 99, 99, 99, 99, 99,
    99, 99, 99, 99, 99, 99, 99, 99, 99, 29, 81, 76, 99, 99, 99, 99, 99, 99, 99, 99, 99, 99, 99, 99,
    99, 99, 25, 99, 99, 0, 99, 99, 99, 99, 12, 99, 99, 99, 99, 99, 99, 99, 99, 99, 99, 99, 99, 99,
    99, 99, 64, 99, 99, 99, 56, 99, 99, 99, 99, 61, 99, 99, 65, 99, 99, 99, 99, 99, 99, 43, 99, 11,
    58, 99, 99, 99, 99, 52, 99, 99, 99, 99, 41, 99, 99, 55, 99, 99, 99, 99, 99, 99, 13, 66, 99, 99,
    99, 99, 99, 99, 99, 99, 99, 99, 99, 26, 99, 99, 99, 99, 75, 99, 99, 99, 99, 99, 84, 60, 17, 39,
    99, 99, 15, 99, 99, 99, 99, 99, 99, 99, 99, 99, 99, 99, 31, 99, 67, 99, 99, 99, 99, 99, 99, 99,
    99, 99, 99, 99, 99, 54, 99, 99, 99, 99, 68, 99, 99, 99, 99, 40, 27, 99, 99, 99, 99, 99, 99, 99,
    99, 99, 99, 99, 99, 4, 99, 99, 99, 99, 99, 99, 99, 99, 99, 99, 99, 99, 99, 99, 99, 99, 99, 71,
    33, 99, 99, 51, 46, 99, 99, 99, 99, 99, 83, 99, 99, 34, 99, 99, 99, 28, 99, 7, 99, 99, 99, 99,
    99, 99, 99, 32, 99, 18, 99, 99, 62, 99, 99, 74, 99, 99, 99, 82, 96, 99, 92, 99, 99, 5, 99, 99,
    99, 99, 88, 79, 99, 99, 99, 42, 99, 99, 99, 94, 99, 47, 69, 99, 99, 99, 9, 99, 99, 99, 99, 53,
    99, 99, 87, 99, 99, 99, 99, 72, 99, 99, 97, 99, 99, 99, 70, 99, 99, 6, 91, 99, 99, 99, 99, 99,
    99, 99, 99, 99, 99, 99, 99, 44, 78, 99, 99, 99, 99, 99, 99, 99, 99, 99, 1, 99, 99, 99, 99, 99,
    99, 99, 99, 99, 99, 99, 99, 99, 99, 99, 99, 99, 99, 99, 99, 99, 99, 99, 99, 85, 99, 57, 30, 99,
    95, 99, 99, 20, 99, 99, 90, 99, 99, 73, 99, 99, 99, 99, 99, 99, 99, 99, 99, 99, 99, 99, 99, 93,
    99, 48, 99, 36, 45, 99, 99, 50, 99, 99, 99, 99, 99, 99, 99, 99, 99, 99, 99, 99, 99, 99, 99, 86,
    99, 99, 99, 99, 99, 99, 99, 77, 99, 99, 99, 99, 99, 99, 99, 22, 99, 99, 99, 19, 99, 99, 99, 99,
    99, 99, 99, 99, 99, 99, 99, 99,
];
